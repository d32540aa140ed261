// The letter of each call, in ASCII.
// A letter is a number and no enum: any byte of a sheet, and any word of a list, may stand where one is read.

pub const SET_MONTH: u32 = 'M' as u32;

pub const OPEN_CLASS: u32 = 'O' as u32;

pub const SET_CLOSE: u32 = 'C' as u32;

pub const SET_LOW_HIGH: u32 = 'H' as u32;

pub const SET_VOLUME: u32 = 'V' as u32;

pub const DESIGNATE: u32 = 'D' as u32;

pub const LIST_STRIKE: u32 = 'L' as u32;

pub const JUDGE_STRIKE: u32 = 'J' as u32;

pub const DELIST_STRIKE: u32 = 'X' as u32;

pub const MARK_STRIKE: u32 = 'I' as u32;

pub const REVIEW_CLASS: u32 = 'R' as u32;

pub const LIST_PERMITTED: u32 = 'A' as u32;
