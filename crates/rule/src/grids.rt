// The grids of the five grounds, over strikes in cents.
ghost use Rattle.std.specs.Prelude.{◌≡◌, ◌≤◌};
ghost use Rattle.word.specs.Limits.{highest_strike, cents};
ghost use Rattle.rule.specs.Grids.{ladder, is_barred, standard_grid, dollar_grid, half_dollars, half_grid, wing_at, wing_grid};
ghost use Rattle.rule.specs.Grids.{two_fifties, two_fifty_grid};

use crate::amounts::{
    FIFTY_DOLLARS, FIVE_DOLLARS, FORTY_FIVE_DOLLARS, HUNDRED_DOLLARS, ONE_DOLLAR, TEN_DOLLARS,
    THREE_DOLLARS, TWENTY_FIVE_DOLLARS, TWO_DOLLARS, TWO_FIFTY, TWO_HUNDRED_DOLLARS,
};
use crate::terms::{Setting, is_dollar_class, is_program_class};
use word::class::ClassRecord;
use word::strike::{HALF_DOLLAR, Strike};

// No match on ranges of k: tried, and to judge a strike took 2 ns of 23 longer.
fn on_ladder(k: u32) -> bool
    ensures { result ≡ ladder k }
{
    (k <= TWENTY_FIVE_DOLLARS) & k.is_multiple_of(TWO_FIFTY)
        | (TWENTY_FIVE_DOLLARS < k) & (k <= TWO_HUNDRED_DOLLARS) & k.is_multiple_of(FIVE_DOLLARS)
        | (TWO_HUNDRED_DOLLARS < k) & k.is_multiple_of(TEN_DOLLARS)
}

// Whether the class is a $1 class that has no such strike.
fn is_barred(class: ClassRecord, k: u32) -> bool
    ensures { result ≡ is_barred class k }
{
    is_dollar_class(class) & (k < FIFTY_DOLLARS) & !k.is_multiple_of(FIVE_DOLLARS)
}

pub fn on_standard(class: ClassRecord, k: u32) -> bool
    ensures { result ≡ standard_grid class k }
{
    on_ladder(k) & !is_barred(class, k)
}

pub fn on_dollar(s: Setting, k: u32) -> bool
    ensures { result ≡ dollar_grid s k }
{
    !s.is_long()
        & is_program_class(s.class)
        & k.is_multiple_of(ONE_DOLLAR)
        & (ONE_DOLLAR..=Strike::FIFTY_DOLLARS.cents()).contains(&k)
}

fn on_half_dollars(k: u32) -> bool
    ensures { result ≡ half_dollars k }
{
    k.is_multiple_of(HALF_DOLLAR) & (k <= Strike::FIVE_FIFTY.cents())
}

pub fn on_half(s: Setting, k: u32) -> bool
    ensures { result ≡ half_grid s k }
{
    s.has_halves() & on_half_dollars(k)
}

// Whether the strike k is a wing at the multiple of $5 `l`, at the price p.
fn is_wing_at(p: u32, l: u32, k: u32) -> bool
    requires { l ≤ cents highest_strike }
    ensures { result ≡ wing_at p l k }
{
    (k == l + TWO_DOLLARS) & (p <= l)
        | (k == l + THREE_DOLLARS) & (l + FIVE_DOLLARS <= p)
        | (k == l + TWO_DOLLARS) & ((l < p) & (p <= l + FIVE_DOLLARS))
}

// The position of a wing is taken at the price p.
pub fn on_wing(s: Setting, p: u32, k: u32) -> bool
    requires { k ≤ cents highest_strike }
    ensures { result ≡ wing_grid s p k }
{
    let l = k / FIVE_DOLLARS * FIVE_DOLLARS;
    s.is_long()
        & is_program_class(s.class)
        & (FIVE_DOLLARS..=FORTY_FIVE_DOLLARS).contains(&l)
        & is_wing_at(p, l, k)
}

// Whether the strike k is one of the $2.50 program's at the price p.
fn is_two_fifty(p: u32, k: u32) -> bool
    ensures { result ≡ two_fifties p k }
{
    k.is_multiple_of(TWO_FIFTY)
        & ((TWENTY_FIVE_DOLLARS < k) & (k < FIFTY_DOLLARS)
            | (FIFTY_DOLLARS..=HUNDRED_DOLLARS).contains(&k) & (k.abs_diff(p) <= TEN_DOLLARS))
}

pub fn on_two_fifty(s: Setting, k: u32) -> bool
    ensures { result ≡ two_fifty_grid s k }
{
    if !s.has_two_fifties() {
        return false;
    }
    is_two_fifty(s.class.close, k) & !is_barred(s.class, k)
}
