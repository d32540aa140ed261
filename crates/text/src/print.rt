// The bytes that are printed for an answer, put into a lent buffer from a position on. Each function answers the
// position after them: nothing may allocate, and the contracts promise each byte by its place.
ghost use Rattle.std.specs.Prelude.{◌≡◌, ◌+◌, ◌%◌, ◌≤◌, length, Ok};
ghost use Rattle.std.proofs.lemmas.List.Edits.{sets};
ghost use Rattle.text.specs.Alphabet.{zero_digit, base};
ghost use Rattle.text.specs.Printing.{decimal, spaced_number, spaced_numbers, value_or_none, after_number, answer_text};

use crate::ascii::{BASE, LINE_FEED, SPACE, ZERO};
use word::answer::{Accepted, Answer, number_of};

// The bytes that a strike takes at most: a space, and the digits of a number of 32 bits.
pub const STRIKE_ROOM: usize = 11;

// The bytes for the rest of an answer: its number, any value and the line end.
pub const ANSWER_ROOM: usize = 32;

// The last digit of a number.
fn last_digit(number: u32) -> u8
    ensures { result ≡ zero_digit + number % base }
{
    ZERO + (number % BASE) as u8
}

// The digits of a number, of any length.
#[tactic(auto, using(crate::proofs::Decimals::decimal_laws, logic::proofs::Stores::sets_append))]
fn put_digits(out: &mut [u8], at: usize, number: u32) -> usize
    requires { at + length (decimal number) ≤ length out.old }
    ensures value { result ≡ at + length (decimal number) }
    ensures out_after { out.new ≡ sets out.old at (decimal number) }
{
    let last = if number < BASE {
        at
    } else {
        put_digits(out, at, number / BASE)
    };
    out[last] = last_digit(number);
    last + 1
}

// The digits of a number. Most have one, and are put without a call.
// Tried: `put_digits` alone, by which an answer of one digit takes 1.7 times as long.
#[tactic(auto, using(crate::proofs::Decimals::decimal_laws))]
pub fn put_decimal(out: &mut [u8], at: usize, number: u32) -> usize
    requires { at + length (decimal number) ≤ length out.old }
    ensures value { result ≡ at + length (decimal number) }
    ensures out_after { out.new ≡ sets out.old at (decimal number) }
{
    if number < BASE {
        out[at] = last_digit(number);
        return at + 1;
    }
    put_digits(out, at, number)
}

// A space and a number.
pub fn put_number(out: &mut [u8], at: usize, number: u32) -> usize
    requires { at + length (spaced_number number) ≤ length out.old }
    ensures value { result ≡ at + length (spaced_number number) }
    ensures out_after { out.new ≡ sets out.old at (spaced_number number) }
{
    out[at] = SPACE;
    put_decimal(out, at + 1, number)
}

// A space and a number, for each of them.
#[tactic(auto, using(crate::proofs::SpacedNumbers::numbers_laws))]
pub fn put_numbers(out: &mut [u8], at: usize, numbers: &[u32]) -> usize
    requires { at + length (spaced_numbers numbers.now) ≤ length out.old }
    ensures value { result ≡ at + length (spaced_numbers numbers.now) }
    ensures out_after { out.new ≡ sets out.old at (spaced_numbers numbers.now) }
{
    let mut next = at;
    for number in numbers {
        next = put_number(out, next, *number);
    }
    next
}

// A space and a value, where it is not 0.
#[tactic(auto, using(crate::proofs::AnswerTexts::no_value_text, crate::proofs::AnswerTexts::value_text))]
fn put_value(out: &mut [u8], at: usize, value: u32) -> usize
    requires { at + length (spaced_numbers (value_or_none value)) ≤ length out.old }
    ensures value { result ≡ at + length (spaced_numbers (value_or_none value)) }
    ensures out_after { out.new ≡ sets out.old at (spaced_numbers (value_or_none value)) }
{
    if value == 0 {
        return at;
    }
    put_number(out, at, value)
}

// The value of an accepted answer, where it has one, then the strikes.
#[tactic(auto, using(crate::proofs::SpacedNumbers::numbers_laws), unfolding(crate::specs::Printing::after_number))]
fn put_accepted(out: &mut [u8], at: usize, accepted: Accepted, strikes: &[u32]) -> usize
    requires { at + length (spaced_numbers (after_number (Ok accepted) strikes.now)) ≤ length out.old }
    ensures value { result ≡ at + length (spaced_numbers (after_number (Ok accepted) strikes.now)) }
    ensures out_after { out.new
        ≡ sets out.old at (spaced_numbers (after_number (Ok accepted) strikes.now)) }
{
    match accepted {
        Accepted::Done => at,
        Accepted::Ground(ground) => put_number(out, at, ground),
        Accepted::Removed(count) => put_number(out, at, count),
        Accepted::Listed(count) => {
            let next = put_number(out, at, count);
            put_numbers(out, next, strikes)
        }
    }
}

// What a line has after its number: any value, then the strikes.
#[tactic(auto, unfolding(crate::specs::Printing::after_number))]
fn put_values(out: &mut [u8], at: usize, answer: Answer, strikes: &[u32]) -> usize
    requires { at + length (spaced_numbers (after_number answer strikes.now)) ≤ length out.old }
    ensures value { result ≡ at + length (spaced_numbers (after_number answer strikes.now)) }
    ensures out_after { out.new
        ≡ sets out.old at (spaced_numbers (after_number answer strikes.now)) }
{
    match answer {
        Ok(accepted) => put_accepted(out, at, accepted, strikes),
        Err(why) => put_value(out, at, why.value()),
    }
}

// The line that is printed for an answer.
#[tactic(auto, using(crate::proofs::AnswerTexts::whole_laws), unfolding(crate::specs::Printing::answer_text))]
pub fn put_answer(out: &mut [u8], at: usize, answer: Answer, strikes: &[u32]) -> usize
    requires { at + length (answer_text answer strikes.now) ≤ length out.old }
    ensures value { result ≡ at + length (answer_text answer strikes.now) }
    ensures out_after { out.new ≡ sets out.old at (answer_text answer strikes.now) }
{
    let next = put_decimal(out, at, number_of(answer));
    let last = put_values(out, next, answer, strikes);
    out[last] = LINE_FEED;
    last + 1
}
