// Searches over the words of a book.
#![tactic(auto)]

pub mod head;
pub mod lookup;
pub mod own;
pub mod search;
