// The numbers of the grounds. No enum: the rules count through them, and a word of any run may hold other numbers.
pub const STANDARD_GROUND: u32 = 0;

pub const DOLLAR_GROUND: u32 = 1;

pub const HALF_GROUND: u32 = 2;

pub const WING_GROUND: u32 = 3;

pub const TWO_FIFTY_GROUND: u32 = 4;

// The highest of them.
pub const HIGHEST_GROUND: u32 = TWO_FIFTY_GROUND;
