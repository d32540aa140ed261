// The counts of own classes, each of its program and against its cap: none can be passed for another.
ghost use Rattle.std.specs.Prelude.{◌≡◌, ◌+◌, ◌<◌, nat_le, nat_lt};
ghost use Rattle.word.specs.Caps.{own};
ghost use Rattle.word.specs.Limits.{longest_run};
ghost use Rattle.word.specs.Programs.{program, number_of};

use crate::programs::{DOLLAR, HALF, Program, TWO_FIFTY};

// How many classes have designation 1 in the program of the number PROGRAM.
#[derive(Clone, Copy)]
pub struct OwnCount<const PROGRAM: u32>(pub u32);

const DOLLAR_CAP: u32 = 150;

const HALF_CAP: u32 = 20;

const TWO_FIFTY_CAP: u32 = 60;

pub type DollarCount = OwnCount<DOLLAR>;

pub type HalfCount = OwnCount<HALF>;

pub type TwoFiftyCount = OwnCount<TWO_FIFTY>;

// 1 for a class that is ours, else 0.
pub fn own_class(designation: u32) -> u32
    ensures { result ≡ own designation }
{
    if designation == 1 { 1 } else { 0 }
}

impl<const PROGRAM: u32> OwnCount<PROGRAM> {
    // The program of the number; $1 where it is no program's.
    pub fn program() -> Program
        ensures { number_of result ≡ (program PROGRAM).number }
    {
        match PROGRAM {
            HALF => Program::Half,
            TWO_FIFTY => Program::TwoFifty,
            _ => Program::Dollar,
        }
    }

    // How many classes may have designation 1 in it.
    fn cap() -> u32
        ensures { result ≡ (program PROGRAM).cap }
    {
        match PROGRAM {
            HALF => HALF_CAP,
            TWO_FIFTY => TWO_FIFTY_CAP,
            _ => DOLLAR_CAP,
        }
    }

    pub fn of(classes: u32) -> OwnCount<PROGRAM>
        ensures { result.0 ≡ classes }
    {
        OwnCount(classes)
    }

    // The count with one class more.
    pub fn counted(self, designation: u32) -> OwnCount<PROGRAM>
        requires { self.0 < longest_run }
        ensures { result.0 ≡ self.entry.0 + own designation }
    {
        OwnCount(self.0 + own_class(designation))
    }

    // Whether no place is left.
    pub fn is_full(self) -> bool
        ensures { result ≡ nat_le (program PROGRAM).cap self.entry.0 }
    {
        OwnCount::<PROGRAM>::cap() <= self.0
    }

    // Whether more classes are counted than the cap allows.
    pub fn is_exceeded(self) -> bool
        ensures { result ≡ nat_lt (program PROGRAM).cap self.entry.0 }
    {
        OwnCount::<PROGRAM>::cap() < self.0
    }
}
