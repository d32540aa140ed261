// The call that a letter and its numbers name, made on a run that is known to be a book. `places` are lent to the calls
// on a class: any words will do, and none too.
#![tactic(auto)]

ghost use Rattle.std.specs.Prelude.{T};
ghost use Rattle.book.specs.Books.{is_book};
ghost use Rattle.book.specs.Letters.{call_of};
ghost use Rattle.book.specs.Made.{Made};

use class_call::{
    designate, open_class, review_class, set_close, set_low_high, set_month, set_volume,
};
use strike_call::{delist_strike, judge_strike, list_permitted, list_strike, mark_strike};
use word::answer::{Answer, Refusal};
use word::strike::Marks;

pub mod letters;

// Makes the call of a letter and its numbers. Where they name none, the call is malformed.
#[tactic(auto, using(crate::proofs::NamedCalls::call_laws), unfolding(book::specs::Letters::call_of))]
pub fn make_call(
    run: &mut [u32],
    second: &mut [u32],
    places: &mut [u32],
    letter: u32,
    numbers: &[u32],
) -> Answer
    requires { T (is_book run.old) }
    ensures { Made (call_of letter numbers.now)
        run.old second.old result run.new second.new }
{
    match (letter, numbers) {
        (letters::SET_MONTH, &[m]) => set_month(run, m),
        (letters::OPEN_CLASS, &[c]) => open_class(run, c, places),
        (letters::SET_CLOSE, &[c, p]) => set_close(run, c, p, places),
        (letters::SET_LOW_HIGH, &[c, low, high]) => set_low_high(run, c, low, high, places),
        (letters::SET_VOLUME, &[c, n]) => set_volume(run, c, n, places),
        (letters::DESIGNATE, &[c, p, d]) => designate(run, c, p, d, places),
        (letters::LIST_STRIKE, &[c, m, h]) => list_strike(run, c, m, h, places),
        (letters::JUDGE_STRIKE, &[c, m, h]) => judge_strike(run, c, m, h, places),
        (letters::DELIST_STRIKE, &[c, m, h]) => delist_strike(run, c, m, h, places),
        (letters::MARK_STRIKE, &[c, m, h, put, call]) => {
            mark_strike(run, c, m, h, Marks { put, call }, places)
        }
        (letters::REVIEW_CLASS, &[c]) => review_class(run, c, places),
        (letters::LIST_PERMITTED, &[c, m]) => list_permitted(run, second, c, m, places),
        _ => Err(Refusal::BeyondLimits),
    }
}
