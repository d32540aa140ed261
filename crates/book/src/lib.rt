// The plain book, its words and its calls: definitions and laws. The code over lent words stands in the crates above.
#![tactic(auto)]
