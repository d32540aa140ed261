// What a call answers.
ghost use Rattle.std.specs.Prelude.{◌≡◌};
ghost use Rattle.word.specs.Answers.{refusal_number, refusal_value, accepted_value, answer_number, answer_value};

// Why a call is refused, by number from 1 to 16.
#[derive(Clone, Copy)]
pub enum Refusal {
    NotABook,
    BeyondLimits,
    AlreadyOpen,
    NotOpen,
    MonthOutside,
    AlreadyStanding,
    NotStanding,
    NoClose,
    NotQualified,
    CapReached,
    OffGrid,
    OutOfRange,
    TooClose,
    OpenInterest,
    // The count is that of the strikes which the second run is too short for, and 0 where the book is.
    OutOfWords(u32),
    CloseOutside,
}

// What an accepted call answers beside its number 0.
#[derive(Clone, Copy)]
pub enum Accepted {
    Done,
    Ground(u32),
    Removed(u32),
    Listed(u32),
}

pub type Answer = Result<Accepted, Refusal>;

impl Refusal {
    // `as` would give the numbers of variants only if none held a value.
    pub fn number(self) -> u32
        ensures { result ≡ refusal_number self }
    {
        match self {
            Refusal::NotABook => 1,
            Refusal::BeyondLimits => 2,
            Refusal::AlreadyOpen => 3,
            Refusal::NotOpen => 4,
            Refusal::MonthOutside => 5,
            Refusal::AlreadyStanding => 6,
            Refusal::NotStanding => 7,
            Refusal::NoClose => 8,
            Refusal::NotQualified => 9,
            Refusal::CapReached => 10,
            Refusal::OffGrid => 11,
            Refusal::OutOfRange => 12,
            Refusal::TooClose => 13,
            Refusal::OpenInterest => 14,
            Refusal::OutOfWords(_) => 15,
            Refusal::CloseOutside => 16,
        }
    }

    pub fn value(self) -> u32
        ensures { result ≡ refusal_value self }
    {
        match self {
            Refusal::OutOfWords(count) => count,
            _ => 0,
        }
    }
}

impl Accepted {
    pub fn value(self) -> u32
        ensures { result ≡ accepted_value self }
    {
        match self {
            Accepted::Done => 0,
            Accepted::Ground(value) | Accepted::Removed(value) | Accepted::Listed(value) => value,
        }
    }
}

// The number of an answer: 0 where the call is accepted, else that of the refusal.
pub fn number_of(answer: Answer) -> u32
    ensures { result ≡ answer_number answer }
{
    match answer {
        Ok(_) => 0,
        Err(refusal) => refusal.number(),
    }
}

pub fn value_of(answer: Answer) -> u32
    ensures { result ≡ answer_value answer }
{
    match answer {
        Ok(accepted) => accepted.value(),
        Err(refusal) => refusal.value(),
    }
}
