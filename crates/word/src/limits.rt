// The limits of the numbers that a call or a word carries.
ghost use Rattle.std.specs.Prelude.{◌≡◌, ◌≤◌};
ghost use Rattle.word.specs.Limits.{is_price, is_strike, is_month, is_class_number, is_volume, is_length, is_designation, are_day_prices, is_mark, last_month, latest_month};

use crate::strike::Strike;

// In cents.
const HIGHEST_PRICE: u32 = 999999;

const LAST_MONTH: u32 = 1023;

// How far ahead of the current month an expiration may stand.
pub const MONTHS_AHEAD: u32 = 39;

const HIGHEST_CLASS: u32 = 16383;

const HIGHEST_VOLUME: u32 = 9999999;

// A run that is just long enough for a book.
pub const SHORTEST_RUN: usize = 4;

const LONGEST_RUN: usize = 65535;

const HIGHEST_DESIGNATION: u32 = 2;

// A price in cents.
pub fn is_price(p: u32) -> bool
    ensures { result ≡ is_price p }
{
    (1 <= p) & (p <= HIGHEST_PRICE)
}

// A strike in half dollars.
pub fn is_strike(h: u32) -> bool
    ensures { result ≡ is_strike h }
{
    (1 <= h) & (h <= Strike::HIGHEST.0)
}

pub fn is_month(m: u32) -> bool
    ensures { result ≡ is_month m }
{
    m <= LAST_MONTH
}

// The last month that may stand in a book of the month `current`.
pub fn latest_month(current: u32) -> u32
    requires { current ≤ last_month }
    ensures { result ≡ latest_month current }
{
    if current < LAST_MONTH - MONTHS_AHEAD {
        current + MONTHS_AHEAD
    } else {
        LAST_MONTH
    }
}

pub fn is_class_number(c: u32) -> bool
    ensures { result ≡ is_class_number c }
{
    (1 <= c) & (c <= HIGHEST_CLASS)
}

pub fn is_volume(n: u32) -> bool
    ensures { result ≡ is_volume n }
{
    n <= HIGHEST_VOLUME
}

// The length of a run that can be a book.
pub fn is_length(n: usize) -> bool
    ensures { result ≡ is_length n }
{
    (SHORTEST_RUN <= n) & (n <= LONGEST_RUN)
}

pub fn is_designation(d: u32) -> bool
    ensures { result ≡ is_designation d }
{
    d <= HIGHEST_DESIGNATION
}

// Whether low, close and high are all 0, or prices that rise: either way they rise, and a low of 0 has a high of 0.
pub fn are_day_prices(low: u32, close: u32, high: u32) -> bool
    ensures { result ≡ are_day_prices low close high }
{
    (low <= close) & ((close <= high) & ((high <= HIGHEST_PRICE) & ((1 <= low) | (high == 0))))
}

// A mark of open interest.
pub fn is_mark(b: u32) -> bool
    ensures { result ≡ is_mark b }
{
    b <= 1
}
