// The rules' amounts of money, in cents.
use word::strike::{HALF_DOLLAR, Strike};

pub const ONE_DOLLAR: u32 = 100;

pub const TWO_DOLLARS: u32 = 200;

pub const TWO_FIFTY: u32 = 250;

pub const THREE_DOLLARS: u32 = 300;

pub const FIVE_DOLLARS: u32 = 500;

pub const TEN_DOLLARS: u32 = 1000;

pub const TWENTY_FIVE_DOLLARS: u32 = 2500;

pub const FORTY_FIVE_DOLLARS: u32 = 4500;

pub const FIFTY_DOLLARS: u32 = HALF_DOLLAR * Strike::FIFTY_DOLLARS.0;

pub const HUNDRED_DOLLARS: u32 = 10000;

pub const TWO_HUNDRED_DOLLARS: u32 = 20000;
