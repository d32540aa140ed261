// The class record: what the book holds of a class beside its series.
ghost use Rattle.std.specs.Prelude.{◌≡◌};
ghost use Rattle.word.specs.Class.{opened, with_close, with_low_high, with_volume, designation, with_designation};
ghost use Rattle.word.specs.Programs.{number_of};

use crate::programs::{COUNT, Program};

#[derive(Clone, Copy)]
pub struct ClassRecord {
    pub number: u32,
    // The last close in cents, 0 when none has come.
    pub close: u32,
    // The national average of contracts a day.
    pub volume: u32,
    // The day's low and high in cents, by which the range is measured; 0 when no close has come.
    pub low: u32,
    pub high: u32,
    // The designation in each program, the $1 program's first: 0 none, 1 ours, 2 another exchange's.
    pub designations: [u32; COUNT],
}

impl ClassRecord {
    pub fn open(number: u32) -> ClassRecord
        ensures { result ≡ opened number }
    {
        ClassRecord {
            number,
            close: 0,
            volume: 0,
            low: 0,
            high: 0,
            designations: [0; COUNT],
        }
    }

    pub fn with_close(self, price: u32) -> ClassRecord
        ensures { result ≡ with_close price self }
    {
        ClassRecord {
            close: price,
            low: price,
            high: price,
            ..self
        }
    }

    pub fn with_low_high(self, low: u32, high: u32) -> ClassRecord
        ensures { result ≡ with_low_high low high self }
    {
        ClassRecord { low, high, ..self }
    }

    pub fn with_volume(self, contracts: u32) -> ClassRecord
        ensures { result ≡ with_volume contracts self }
    {
        ClassRecord {
            volume: contracts,
            ..self
        }
    }

    // The designation in a program.
    pub fn designation(self, program: Program) -> u32
        ensures { result ≡ designation (number_of program) self }
    {
        self.designations[program.index()]
    }

    pub fn with_designation(self, program: Program, d: u32) -> ClassRecord
        ensures { result ≡ with_designation (number_of program) d self }
    {
        let mut designations = self.designations;
        designations[program.index()] = d;
        ClassRecord {
            designations,
            ..self
        }
    }
}
