// The open strikes, those that the rules accept where none stands: from a lowest to a highest, multiples of a step that
// goes by the height.
ghost use Rattle.std.specs.Prelude.{◌≡◌, ◌^◌, ◌<◌, ◌≤◌};
ghost use Rattle.word.specs.Limits.{highest_price, highest_strike};
ghost use Rattle.rule.specs.Terms.{in_halves};
ghost use Rattle.rule.specs.Grids.{five_dollars};
ghost use Rattle.rule.specs.Ends.{fifth_on, fifth_above, half_end, low_end, high_end, dollar_end};
ghost use Rattle.rule.specs.Ends.{ladder_end, below_end, around_end, half_top, rungs, most_open};

use crate::amounts::{
    FIFTY_DOLLARS, FIVE_DOLLARS, HUNDRED_DOLLARS, ONE_DOLLAR, TEN_DOLLARS, TWENTY_FIVE_DOLLARS,
    TWO_FIFTY, TWO_HUNDRED_DOLLARS,
};
use crate::terms::{Setting, is_dollar_class, is_program_class};
use word::class::ClassRecord;
use word::strike::{HALF_DOLLAR, Strike};

// A price of at most $20 sets no lowest strike.
const LOW_PRICE: u32 = 2000;

// The five lowest strikes above a price below it are multiples of $2.50.
const FIFTEEN_DOLLARS: u32 = 1500;

// How many strikes above a price of at most $20 are in range whatever their distance.
const RANGE_COUNT: u32 = 5;

// A strike is at most twice the price when it is at most the price in quarters of a dollar.
const QUARTER_DOLLAR: u32 = 25;

// Where multiples of $2.50 end on the ladder, and those of $5.
const LAST_TWO_FIFTY: Strike = Strike(TWENTY_FIVE_DOLLARS / HALF_DOLLAR);

const LAST_FIVE: Strike = Strike(TWO_HUNDRED_DOLLARS / HALF_DOLLAR);

// Where those of the $2.50 program end.
const LAST_HUNDRED: Strike = Strike(HUNDRED_DOLLARS / HALF_DOLLAR);

// The steps of the ladder and of whole dollars, in half dollars.
const BY_ONE_DOLLAR: u32 = ONE_DOLLAR / HALF_DOLLAR;

const BY_TWO_FIFTY: u32 = TWO_FIFTY / HALF_DOLLAR;

pub const BY_FIVE_DOLLARS: u32 = FIVE_DOLLARS / HALF_DOLLAR;

const BY_TEN_DOLLARS: u32 = TEN_DOLLARS / HALF_DOLLAR;

// Of the multiples of a step, the last of the five lowest above q. The step is a const parameter: with a step that is
// handed on a division was compiled, and to judge a strike took 2 ns of 28 longer.
fn fifth_on<const STEP: u32>(q: u32) -> u32
    requires { (1 ≤ STEP) × (STEP ≤ in_halves five_dollars) × (q < 2 ^ 31) }
    ensures { result ≡ fifth_on STEP q }
{
    (q / STEP + RANGE_COUNT) * STEP
}

// The last of the five lowest strikes above q, a strike of at most $20, on the range grid of Standard and Dollar. The
// closed form fits a word where twice q does.
fn fifth_above(whole: bool, dollar: bool, q: u32) -> u32
    requires { q < 2 ^ 31 }
    ensures { result ≡ fifth_above whole dollar q }
{
    if whole {
        fifth_on::<BY_ONE_DOLLAR>(q)
    } else if dollar {
        fifth_on::<BY_FIVE_DOLLARS>(q)
    } else if q < FIFTEEN_DOLLARS / HALF_DOLLAR {
        fifth_on::<BY_TWO_FIFTY>(q)
    } else {
        q / BY_TWO_FIFTY * BY_FIVE_DOLLARS
    }
}

// The lowest strike in range on the other grounds than Half at the price p; one of at most $20 sets none.
pub fn low_end(p: u32) -> u32
    requires { p ≤ highest_price }
    ensures { result ≡ low_end p }
{
    if LOW_PRICE < p {
        p.div_ceil(ONE_DOLLAR)
    } else {
        0
    }
}

// The last strike that whole dollars reach, 0 where the class has none.
fn dollar_end(class: ClassRecord) -> u32
    ensures { result ≡ dollar_end class }
{
    if is_program_class(class) {
        Strike::FIFTY_DOLLARS.0
    } else {
        0
    }
}

// Up to the strike `to`, from the rung before on, the open strikes are multiples of `step`. `all` says that each such
// multiple in range is open.
#[derive(Clone, Copy)]
pub struct Rung {
    pub to: u32,
    pub step: u32,
    pub all: bool,
}

// How many rungs there are.
const RUNGS: usize = 7;

// The rungs of a setting.
pub type Rungs = [Rung; RUNGS];

// Where there is no strike the end is 0, and no `None`: strikes begin at 1, so that `h <= end` asks of both at once.
impl Setting {
    // The last strike that Half gives at the price p, 0 where it gives none.
    pub fn half_end(self, p: u32) -> u32
        ensures { result ≡ half_end self p }
    {
        if self.has_halves() & (p <= LOW_PRICE) {
            (p / QUARTER_DOLLAR)
                .max(p / HALF_DOLLAR + RANGE_COUNT)
                .min(Strike::FIVE_FIFTY.0)
        } else {
            0
        }
    }

    // The highest strike in range on the other grounds at the price p.
    pub fn high_end(self, p: u32) -> u32
        requires { p ≤ highest_price }
        ensures { result ≡ high_end self p }
    {
        if LOW_PRICE < p {
            return (3 * p / ONE_DOLLAR).min(Strike::HIGHEST.0);
        }
        let dollar = is_dollar_class(self.class);
        let fifth = fifth_above(!self.is_long() & dollar, dollar, p / HALF_DOLLAR);
        (p / QUARTER_DOLLAR).max(fifth)
    }

    // The last strike that multiples of $2.50 reach from the lowest on, 0 in a $1 class.
    fn ladder_end(self) -> u32
        ensures { result ≡ ladder_end self }
    {
        if is_dollar_class(self.class) {
            0
        } else if self.has_two_fifties() {
            Strike::FIFTY_DOLLARS.0
        } else {
            LAST_TWO_FIFTY.0
        }
    }

    // The last strike to $100 that is below $50 or more than $10 below the close, 0 without the $2.50 program.
    fn below_end(self) -> u32
        ensures { result ≡ below_end self }
    {
        if !self.has_two_fifties() {
            return 0;
        }
        let below = self.class.close.max(FIFTY_DOLLARS + TEN_DOLLARS) - (TEN_DOLLARS + 1);
        (below / HALF_DOLLAR).min(LAST_HUNDRED.0)
    }

    // The last strike to $100 that is no more than $10 above the close, 0 without the $2.50 program.
    fn around_end(self) -> u32
        requires { self.class.close ≤ highest_price }
        ensures { result ≡ around_end self }
    {
        if !self.has_two_fifties() {
            return 0;
        }
        ((self.class.close + TEN_DOLLARS) / HALF_DOLLAR).min(LAST_HUNDRED.0)
    }

    // The last strike that Half gives at the day's low or at its high.
    fn half_top(self) -> u32
        ensures { result ≡ half_top self }
    {
        self.half_end(self.class.low)
            .max(self.half_end(self.class.high))
    }

    // What the open strikes are multiples of, rung by rung.
    pub fn rungs(self) -> Rungs
        requires { self.class.close ≤ highest_price }
        ensures { result ≡ rungs self }
    {
        [
            Rung {
                to: self.half_top(),
                step: 1,
                all: true,
            },
            Rung {
                to: dollar_end(self.class),
                step: BY_ONE_DOLLAR,
                all: !self.is_long(),
            },
            Rung {
                to: self.ladder_end(),
                step: BY_TWO_FIFTY,
                all: true,
            },
            Rung {
                to: self.below_end(),
                step: BY_FIVE_DOLLARS,
                all: true,
            },
            Rung {
                to: self.around_end(),
                step: BY_TWO_FIFTY,
                all: true,
            },
            Rung {
                to: LAST_FIVE.0,
                step: BY_FIVE_DOLLARS,
                all: true,
            },
            Rung {
                to: Strike::HIGHEST.0,
                step: BY_TEN_DOLLARS,
                all: true,
            },
        ]
    }
}

// At most so many strikes are open where `high` is the highest in range: all that Half can give, and half of those
// above, rounded up on each rung.
pub fn most_open(high: u32) -> u32
    requires { high ≤ highest_strike }
    ensures { result ≡ most_open high }
{
    (Strike::FIVE_FIFTY.0 + high + RUNGS as u32) / 2
}
