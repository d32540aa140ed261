// The text of a sheet: its lines, and the bytes that are printed for an answer.
#![tactic(auto)]

pub mod ascii;
pub mod line;
pub mod print;
