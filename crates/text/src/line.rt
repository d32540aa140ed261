// One line of a sheet, read byte by byte by a state machine that goes by value, or number by number where the whole
// line is at hand. No line is too long for either.
ghost use Rattle.std.specs.Prelude.{◌≡◌, ◌+◌, ◌*◌, ◌-◌, ◌<◌, ◌≤◌, length, MatchOption, MatchResult};
ghost use Rattle.text.specs.Alphabet.{zero_digit, nine_digit, base};
ghost use Rattle.text.specs.SheetLines.{line_end};
ghost use Rattle.text.specs.WholeLines.{digits_read, numeral_read, with_number, FormedRead, FormlessRead, WholeAt};
ghost use Rattle.text.specs.Reading.{numbers_kept, capped, push_of, feed_of, end_of};

use crate::ascii::{BASE, FIRST_LETTER, LAST_LETTER, LINE_FEED, NINE, SPACE, ZERO};

// How many numbers a line keeps: no call has more.
pub const NUMBERS_KEPT: usize = 5;

// What stands for every number above the largest limit.
const NUMBER_CAP: u32 = 99999999;

// With one digit more, numbers from here on are above it.
const CAPPED_FROM: u32 = 10000000;

// How far a line has been read. A line that has ended well is at Letter.
#[derive(Clone, Copy)]
pub enum Phase {
    Start,
    Letter,
    Space,
    Zero,
    Number,
    Malformed,
}

// The phase, the letter, the number that is being read, and the numbers that have ended.
// Nothing may allocate: so they are an array beside their count.
#[derive(Clone, Copy)]
pub struct Line {
    pub phase: Phase,
    pub letter: u8,
    pub value: u32,
    pub count: usize,
    pub numbers: [u32; NUMBERS_KEPT],
}

impl Line {
    // A line of which nothing has been read.
    pub const EMPTY: Line = Line {
        phase: Phase::Start,
        letter: 0,
        value: 0,
        count: 0,
        numbers: [0; NUMBERS_KEPT],
    };

    // What has been read begins no line of the form.
    const MALFORMED: Line = Line {
        phase: Phase::Malformed,
        ..Line::EMPTY
    };

    // The line with one byte more.
    #[tactic(auto, unfolding(crate::specs::Reading::feed_by))]
    pub fn feed(self, byte: u8) -> Line
        ensures { result ≡ feed_of self byte }
    {
        match (self.phase, byte) {
            (Phase::Start, FIRST_LETTER..=LAST_LETTER) => Line {
                phase: Phase::Letter,
                letter: byte,
                ..Line::EMPTY
            },
            (Phase::Letter, SPACE) => Line {
                phase: Phase::Space,
                ..self
            },
            (Phase::Space, ZERO) => Line {
                phase: Phase::Zero,
                value: 0,
                ..self
            },
            (Phase::Space, ZERO..=NINE) => Line {
                phase: Phase::Number,
                value: u32::from(byte - ZERO),
                ..self
            },
            (Phase::Number, ZERO..=NINE) => Line {
                value: grow(self.value, byte),
                ..self
            },
            (Phase::Zero | Phase::Number, SPACE) => self.pushed(Phase::Space),
            _ => Line::MALFORMED,
        }
    }

    // The line at its end.
    #[tactic(auto, unfolding(crate::specs::Reading::end_by))]
    pub fn end(self) -> Line
        ensures { result ≡ end_of self }
    {
        match self.phase {
            Phase::Letter => self,
            Phase::Zero | Phase::Number => self.pushed(Phase::Letter),
            Phase::Start | Phase::Space | Phase::Malformed => Line::MALFORMED,
        }
    }

    // Ends the number that is being read.
    fn pushed(self, phase: Phase) -> Line
        ensures { result ≡ push_of self phase }
    {
        match self.with_number(self.value) {
            Some(line) => Line { phase, ..line },
            None => Line::MALFORMED,
        }
    }

    // The line with one number more that has ended, where it has fewer than five.
    fn with_number(self, number: u32) -> Option<Line>
        ensures { MatchOption result (numbers_kept ≤ self.count)
            (λ line. (self.count < numbers_kept) × (line ≡ with_number self number)) }
    {
        if NUMBERS_KEPT <= self.count {
            return None;
        }
        let mut numbers = self.numbers;
        numbers[self.count] = number;
        Some(Line {
            value: 0,
            count: self.count + 1,
            numbers,
            ..self
        })
    }
}

// A line that has ended, and where: at its line end, or with the bytes.
#[derive(Clone, Copy)]
pub struct WholeLine {
    pub line: Line,
    pub end: usize,
}

// A number with one digit more, or the cap where it is more than that.
// Tried: `min` in 64 bits, by which lines of 12 bytes are read 18 % slower.
fn grow(value: u32, digit: u8) -> u32
    requires { (zero_digit ≤ digit) × (digit ≤ nine_digit) }
    ensures { result ≡ capped (base * value + (digit - zero_digit)) }
{
    if value < CAPPED_FROM {
        BASE * value + u32::from(digit - ZERO)
    } else {
        NUMBER_CAP
    }
}

// Goes on with a number by the digits at the front: the number, and the bytes after them.
#[tactic(auto, using(crate::proofs::WholeLines::digit_laws))]
fn read_digits(bytes: &[u8], first: u32) -> (u32, &[u8])
    ensures { (result.0, result.1.now) ≡ digits_read first bytes.now }
{
    let mut number = first;
    let mut rest = bytes;
    while let [digit @ ZERO..=NINE, after @ ..] = rest {
        number = grow(number, *digit);
        rest = after;
    }
    (number, rest)
}

// The number without leading zeros at the front, and the bytes after it.
#[tactic(auto, using(crate::proofs::WholeLines::numeral_laws))]
fn read_number(bytes: &[u8]) -> Option<(u32, &[u8])>
    ensures { MatchOption result (numeral_read bytes.now ≡ None)
        (λ read. numeral_read bytes.now ≡ Some (read.0, read.1.now)) }
{
    match bytes {
        [ZERO, rest @ ..] => Some((0, rest)),
        [first @ ZERO..=NINE, rest @ ..] => Some(read_digits(rest, u32::from(*first - ZERO))),
        _ => None,
    }
}

// The line at the front, where it has the form, and the bytes from its end on. Where it has not, the bytes that are
// left where this shows: its end is still to be found there.
#[tactic(auto, using(crate::proofs::WholeLines::left_laws, crate::proofs::WholeLines::line_laws))]
fn read_formed(bytes: &[u8]) -> Result<(Line, &[u8]), &[u8]>
    ensures { MatchResult result (λ read. FormedRead bytes.now read.0 read.1.now)
        (λ rest. FormlessRead bytes.now rest.now) }
{
    let [letter @ FIRST_LETTER..=LAST_LETTER, numbers @ ..] = bytes else {
        return Err(bytes);
    };
    let mut line = Line {
        phase: Phase::Letter,
        letter: *letter,
        ..Line::EMPTY
    };
    let mut rest = numbers;
    while let [SPACE, text @ ..] = rest {
        let Some((number, after)) = read_number(text) else {
            return Err(rest);
        };
        let Some(longer) = line.with_number(number) else {
            return Err(after);
        };
        line = longer;
        rest = after;
    }
    match rest {
        [] | [LINE_FEED, ..] => Ok((line, rest)),
        _ => Err(rest),
    }
}

// The index of the first line end, or the length.
fn line_end(bytes: &[u8]) -> usize
    ensures { result ≡ line_end bytes.now }
{
    bytes
        .iter()
        .position(|byte| *byte == LINE_FEED)
        .unwrap_or(bytes.len())
}

// The whole line that begins at `from`, number by number.
#[tactic(auto, using(crate::proofs::WholeLines::passing_laws))]
pub fn read_line(sheet: &[u8], from: usize) -> WholeLine
    requires { from < length sheet.now }
    ensures { WholeAt sheet.now from result }
{
    match read_formed(&sheet[from..]) {
        Ok((line, rest)) => WholeLine {
            line,
            end: sheet.len() - rest.len(),
        },
        Err(rest) => WholeLine {
            line: Line::MALFORMED,
            end: sheet.len() - rest.len() + line_end(rest),
        },
    }
}
