// What the rules read of a class and an expiration.
ghost use Rattle.std.specs.Prelude.{◌≡◌};
ghost use Rattle.rule.specs.Terms.{is_designated, is_dollar_class, is_half_class, is_two_fifty_class};
ghost use Rattle.rule.specs.Terms.{is_long, has_two_fifties, is_outside};
ghost use Rattle.rule.specs.Grids.{has_halves};
ghost use Rattle.rule.specs.Ends.{is_program_class};

use word::class::ClassRecord;
use word::limits::MONTHS_AHEAD;
use word::programs::{DOLLAR_PRICE, HALF_PRICE, HALF_VOLUME, Program};

// An expiration is long so many months ahead of the current one.
const LONG_FROM: u32 = 9;

// A class and an expiration of it, seen from the current month, document 01's `now`.
#[derive(Clone, Copy)]
pub struct Setting {
    pub class: ClassRecord,
    pub current: u32,
    pub month: u32,
}

fn is_designated(designation: u32) -> bool
    ensures { result ≡ is_designated designation }
{
    matches!(designation, 1 | 2)
}

pub fn is_dollar_class(class: ClassRecord) -> bool
    ensures { result ≡ is_dollar_class class }
{
    is_designated(class.designation(Program::Dollar))
}

// A $1 class whose close allows strikes of $1.
pub fn is_program_class(class: ClassRecord) -> bool
    ensures { result ≡ is_program_class class }
{
    is_dollar_class(class) & (class.close < DOLLAR_PRICE)
}

pub fn is_half_class(class: ClassRecord) -> bool
    ensures { result ≡ is_half_class class }
{
    is_designated(class.designation(Program::Half))
}

fn is_two_fifty_class(class: ClassRecord) -> bool
    ensures { result ≡ is_two_fifty_class class }
{
    is_designated(class.designation(Program::TwoFifty))
}

impl Setting {
    pub fn is_long(self) -> bool
        ensures { result ≡ is_long self }
    {
        LONG_FROM <= self.month.saturating_sub(self.current)
    }

    // Whether the expiration has strikes of the $0.50 program.
    pub fn has_halves(self) -> bool
        ensures { result ≡ has_halves self }
    {
        let class = self.class;
        !self.is_long()
            & is_half_class(class)
            & (class.close <= HALF_PRICE)
            & (HALF_VOLUME <= class.volume)
    }

    // Whether the expiration has strikes of the $2.50 program.
    pub fn has_two_fifties(self) -> bool
        ensures { result ≡ has_two_fifties self }
    {
        !self.is_long() & is_two_fifty_class(self.class)
    }

    // Whether nothing can be listed in the expiration's month.
    pub fn is_outside(self) -> bool
        ensures { result ≡ is_outside self }
    {
        (self.month <= self.current) | (MONTHS_AHEAD < self.month.saturating_sub(self.current))
    }
}
