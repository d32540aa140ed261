// The words of the strike book: fields by shifts and masks, the eight kinds of word, and the small values that the book
// deals in.
#![tactic(auto)]

pub mod answer;
pub mod caps;
pub mod class;
pub mod codec;
pub mod counter;
pub mod field;
pub mod figures;
pub mod grounds;
pub mod head;
pub mod kind;
pub mod limits;
pub mod programs;
pub mod strike;
