// The bytes that lines and answers are written in.

// The byte that ends a line.
pub const LINE_FEED: u8 = 10;

pub const SPACE: u8 = 32;

// `0`
pub const ZERO: u8 = 48;

// `9`
pub const NINE: u8 = 57;

// `A`
pub const FIRST_LETTER: u8 = 65;

// `Z`
pub const LAST_LETTER: u8 = 90;

// All figures are written in base ten.
pub const BASE: u32 = 10;
