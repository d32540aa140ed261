// The strike type, and the words of strikes.
ghost use Rattle.std.specs.Prelude.{◌≡◌, ◌<◌};
ghost use Rattle.word.specs.Limits.{cents};
ghost use Rattle.word.specs.Strikes.{is_marked_in, signed, order_of, unmarked, is_next_strike, is_first_strike};

use crate::field::{Field, field_of};
use crate::grounds::HIGHEST_GROUND;
use crate::kind::{KINDRED, STRIKE, key_of, kind_of};
use std::num::wrapping_add_u32;

// What a strike is counted in, in cents.
pub const HALF_DOLLAR: u32 = 50;

// A strike, counted in half dollars.
#[derive(Clone, Copy)]
pub struct Strike(pub u32);

// The marks of open interest of a strike: that of its put and that of its call.
#[derive(Clone, Copy)]
pub struct Marks {
    pub put: u32,
    pub call: u32,
}

impl Strike {
    pub const HIGHEST: Strike = Strike(19999);

    pub const FIFTY_DOLLARS: Strike = Strike(100);

    pub const FIVE_FIFTY: Strike = Strike(11);

    // The strike in cents.
    pub fn cents(self) -> u32
        requires { self.0 < 65536 }
        ensures { result ≡ cents self.0 }
    {
        HALF_DOLLAR * self.0
    }
}

// Where a strike word holds its ground and its two marks of open interest.
pub const GROUND: Field = Field { low: 15, width: 3 };

pub const PUT: Field = Field { low: 18, width: 1 };

pub const CALL: Field = Field { low: 19, width: 1 };

// Whether a strike word has a mark.
pub fn is_marked(w: u32) -> bool
    ensures { result ≡ is_marked_in w }
{
    (field_of(w, PUT) == 1) | (field_of(w, CALL) == 1)
}

// A number as the signed ones are ordered: those with the highest bit come before all others.
fn signed(n: u32) -> u32
    ensures { result ≡ signed n }
{
    wrapping_add_u32(n, 1 << 31)
}

// What rises from an expiration to its strikes and from strike to strike: the kind and then the strike.
fn order_of(w: u32) -> u32
    ensures { result ≡ order_of w }
{
    signed(kind_of(w) * KINDRED + key_of(w, STRIKE))
}

// The two marks as one field.
const MARKS: Field = Field {
    low: PUT.low,
    width: PUT.width + CALL.width,
};

// How many strike words a ground has, but for their marks.
const STRIKES: u32 = 1 << GROUND.low;

// The lowest strike word, and the highest without marks.
const LOWEST_WORD: u32 = STRIKE.number * KINDRED;

const HIGHEST_WORD: u32 = LOWEST_WORD + HIGHEST_GROUND * STRIKES + (STRIKES - 1);

// A word without the marks that a strike word has.
fn unmarked(w: u32) -> u32
    ensures { result ≡ unmarked w }
{
    w - (field_of(w, MARKS) << MARKS.low)
}

// Whether w may follow the word before it as a strike follows another: where that is a strike, w is one. What else is
// asked of a first strike (`is_first_strike`), and that a last one is not above the highest, is asked once for a
// stretch. Numbers are compared as signed ones, which many words at a time can be at once.
pub fn is_next_strike(before: u32, w: u32) -> bool
    ensures { result ≡ is_next_strike before w }
{
    (signed(unmarked(w)) <= signed(HIGHEST_WORD)) & (order_of(before) < order_of(w))
}

// Whether w, which may follow an expiration word as a strike follows another, is a strike above 0.
pub fn is_first_strike(w: u32) -> bool
    ensures { result ≡ is_first_strike w }
{
    order_of(LOWEST_WORD) < order_of(w)
}
