// The calls on months and classes, over a run that is known to be a book: `M`, `O`, `C`, `H`, `V`, `D` and `R`.
// `places` is what `place::lookup::class_at` remembers of where classes stand: any numbers will do, and any count of
// them.
// The run is lent as its words, as C hands it over. Tried: a struct of them that is known to be a book, by which each
// reading costs one value more and its proof one equation.
#![tactic(auto)]

ghost use Rattle.std.specs.Prelude.{[], T};
ghost use Rattle.book.specs.Books.{is_book};
ghost use Rattle.book.specs.Calls.{call_m, on, call_o, call_c, call_h, call_v, call_d, call_r};
ghost use Rattle.book.specs.Made.{Made};

use crate::programs::claim_of;
use edit::{insert_class, store_designation, store_figures};
use place::head::{current, used};
use place::lookup::{class_at, find_class, is_open_at, next_class};
use removal::expiry::expire;
use review::review_all;
use word::answer::{Accepted, Answer, Refusal};
use word::figures;
use word::limits::{is_class_number, is_designation, is_month, is_price, is_volume};
use word::programs::Program;

pub mod programs;

// `M`: sets the current month, and removes the strikes of earlier months. A book has none before its own month, so that
// this changes nothing where it is that month.
pub fn set_month(run: &mut [u32], m: u32) -> Answer
    requires { T (is_book run.old) }
    ensures { Made (call_m m) run.old [] result run.new [] }
{
    if !is_month(m) {
        return Err(Refusal::BeyondLimits);
    }
    if m < current(run) {
        return Err(Refusal::MonthOutside);
    }
    if m == current(run) {
        return Ok(Accepted::Done);
    }
    expire(run, m);
    Ok(Accepted::Done)
}

// `O`: opens a class.
pub fn open_class(run: &mut [u32], c: u32, places: &mut [u32]) -> Answer
    requires { T (is_book run.old) }
    ensures { Made (on c call_o) run.old [] result run.new [] }
{
    if !is_class_number(c) {
        return Err(Refusal::BeyondLimits);
    }
    let at = class_at(run, places, c);
    if is_open_at(run, at, c) {
        return Err(Refusal::AlreadyOpen);
    }
    if run.len() < used(run) + figures::LENGTH {
        return Err(Refusal::OutOfWords(0));
    }
    insert_class(run, at, c);
    Ok(Accepted::Done)
}

// `C`: sets the close, and the day's low and high to it.
pub fn set_close(run: &mut [u32], c: u32, p: u32, places: &mut [u32]) -> Answer
    requires { T (is_book run.old) }
    ensures { Made (on c (call_c p)) run.old [] result run.new [] }
{
    if !(is_class_number(c) & is_price(p)) {
        return Err(Refusal::BeyondLimits);
    }
    let class = find_class(run, places, c)?;
    store_figures(run, class.at, class.figures.with_close(p));
    Ok(Accepted::Done)
}

// `H`: sets the day's low and high, with the close between them.
pub fn set_low_high(run: &mut [u32], c: u32, low: u32, high: u32, places: &mut [u32]) -> Answer
    requires { T (is_book run.old) }
    ensures { Made (on c (call_h low high)) run.old [] result run.new [] }
{
    if !(is_class_number(c) & (is_price(low) & is_price(high))) {
        return Err(Refusal::BeyondLimits);
    }
    let class = find_class(run, places, c)?;
    if class.figures.close == 0 {
        return Err(Refusal::NoClose);
    }
    if (class.figures.close < low) | (high < class.figures.close) {
        return Err(Refusal::CloseOutside);
    }
    store_figures(run, class.at, class.figures.with_low_high(low, high));
    Ok(Accepted::Done)
}

// `V`: sets the volume.
pub fn set_volume(run: &mut [u32], c: u32, n: u32, places: &mut [u32]) -> Answer
    requires { T (is_book run.old) }
    ensures { Made (on c (call_v n)) run.old [] result run.new [] }
{
    if !(is_class_number(c) & is_volume(n)) {
        return Err(Refusal::BeyondLimits);
    }
    let class = find_class(run, places, c)?;
    store_figures(run, class.at, class.figures.with_volume(n));
    Ok(Accepted::Done)
}

// `D`: gives the program p the designation d.
pub fn designate(run: &mut [u32], c: u32, p: u32, d: u32, places: &mut [u32]) -> Answer
    requires { T (is_book run.old) }
    ensures { Made (on c (call_d p d)) run.old [] result run.new [] }
{
    let program = Program::try_from(p)?;
    if !(is_class_number(c) & is_designation(d)) {
        return Err(Refusal::BeyondLimits);
    }
    let class = find_class(run, places, c)?;
    claim_of(run, class.figures, program, d)?;
    let was = class.figures.designation(program);
    store_designation(
        run,
        class.at,
        class.figures.with_designation(program, d),
        program,
        was,
    );
    Ok(Accepted::Done)
}

// `R`: the review.
pub fn review_class(run: &mut [u32], c: u32, places: &mut [u32]) -> Answer
    requires { T (is_book run.old) }
    ensures { Made (on c call_r) run.old [] result run.new [] }
{
    if !is_class_number(c) {
        return Err(Refusal::BeyondLimits);
    }
    let class = find_class(run, places, c)?;
    if class.figures.close == 0 {
        return Err(Refusal::NoClose);
    }
    let from = class.at + figures::LENGTH;
    let to = next_class(run, from);
    Ok(Accepted::Removed(review_all(run, from, to, class.figures.close) as u32))
}
