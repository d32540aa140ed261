// The programs, $1 first: their numbers, where their designations stand in a class word, and what qualifies for them.
ghost use Rattle.std.specs.Prelude.{◌≡◌, ◌-◌};
ghost use Rattle.word.specs.Field.{field};
ghost use Rattle.word.specs.Limits.{is_designation};
ghost use Rattle.word.specs.Programs.{program, number_of, Numbered, HoldsDesignation};

use crate::answer::Refusal;
use crate::class::ClassRecord;
use crate::field::{Field, field_of};

// The programs by their numbers.
#[derive(Clone, Copy)]
pub enum Program {
    Dollar = 1,
    Half = 2,
    TwoFifty = 3,
}

// Their numbers, as types have them.
pub const DOLLAR: u32 = 1;

pub const HALF: u32 = 2;

pub const TWO_FIFTY: u32 = 3;

// How many there are.
pub const COUNT: usize = 3;

// Where a class word holds their designations.
pub const DOLLAR_BITS: Field = Field {
    low: 14,
    width: DESIGNATION_WIDTH,
};

pub const HALF_BITS: Field = Field {
    low: 16,
    width: DESIGNATION_WIDTH,
};

pub const TWO_FIFTY_BITS: Field = Field {
    low: 18,
    width: DESIGNATION_WIDTH,
};

const DESIGNATION_WIDTH: u32 = 2;

// No designation has a bit from here on.
pub const DESIGNATIONS_END: u32 = TWO_FIFTY_BITS.low + TWO_FIFTY_BITS.width;

// What a new designation 1 needs: a close below this for $1, a close of at most this and a volume of at least this for
// $0.50, nothing for $2.50.
pub const DOLLAR_PRICE: u32 = 5000;

pub const HALF_PRICE: u32 = 500;

pub const HALF_VOLUME: u32 = 1000;

// Whether the field of a word holds a designation. 3 alone is none, which has both bits; so one mask of the bits that
// are 1 with the bit above them asks for every field of a word at once.
pub fn is_designation_in(w: u32, bits: Field) -> bool
    requires { HoldsDesignation bits }
    ensures { result ≡ is_designation (field w bits) }
{
    let lowest = Field {
        low: bits.low,
        width: 1,
    };
    field_of(w & (w >> 1), lowest) == 0
}

// The program of a number, or the refusal of a number that is none's.
impl TryFrom<u32> for Program {
    type Error = Refusal;

    ghost try_from_gives = { Numbered };

    fn try_from(p: u32) -> Result<Program, Refusal> {
        match p {
            DOLLAR => Ok(Program::Dollar),
            HALF => Ok(Program::Half),
            TWO_FIFTY => Ok(Program::TwoFifty),
            _ => Err(Refusal::BeyondLimits),
        }
    }
}

impl Program {
    // Its place among the programs.
    pub fn index(self) -> usize
        ensures { result ≡ number_of self - 1 }
    {
        self as usize - 1
    }

    // Whether the close and the volume qualify for the program.
    pub fn is_qualified(self, figures: ClassRecord) -> bool
        ensures { result ≡ (program (number_of self)).qualifies figures }
    {
        match self {
            Program::Dollar => figures.close < DOLLAR_PRICE,
            Program::Half => (figures.close <= HALF_PRICE) & (HALF_VOLUME <= figures.volume),
            Program::TwoFifty => true,
        }
    }

    // Whether a new designation 1 needs a close.
    pub fn needs_close(self) -> bool
        ensures { result ≡ (program (number_of self)).needs_close }
    {
        match self {
            Program::Dollar | Program::Half => true,
            Program::TwoFifty => false,
        }
    }
}
