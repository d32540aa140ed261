// The calls of a sheet, made line by line: of a whole sheet, or of one that comes in pieces.
#![tactic(auto)]

mod lent;
pub mod piece;
pub mod sheet;
