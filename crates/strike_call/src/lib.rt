// The calls on strikes, over a run that is known to be a book: `L`, `J`, `X`, `I` and `A`. `places` is what
// `place::lookup::class_at` remembers of where classes stand: any numbers will do, and any count of them. `J` and `A`,
// which only read the run, take a slice of all of it first: that one stays in registers, where the lent one would be
// copied in memory.
// The run is lent as its words, as C hands it over. Tried: a struct of them that is known to be a book, by which each
// reading costs one value more and its proof one equation.
#![tactic(auto)]

ghost use Rattle.std.specs.Prelude.{◌&&◌, [], ◌≡◌, T, ltb, get_or};
ghost use Rattle.word.specs.Kinds.{is_of_kind, strike_kind};
ghost use Rattle.book.specs.Books.{is_book};
ghost use Rattle.book.specs.Calls.{on, call_a, call_i, call_j, call_l, call_x, is_place};
ghost use Rattle.book.specs.Layout.{facts_of, used};
ghost use Rattle.book.specs.Made.{Made};
ghost use Rattle.book.specs.Views.{view_of};
ghost use Rattle.strike_call.specs.Judging.{Sought, judged};

use edit::{insert_strike, store_marks};
use place::head;
use place::lookup::{StrikeSearch, find_class, look_up_expiration, look_up_strike};
use removal::delist;
use rule::judgement::judge;
use rule::terms::Setting;
use word::answer::{Accepted, Answer, Refusal};
use word::class::ClassRecord;
use word::kind::{STRIKE, is_of_kind};
use word::limits::{is_class_number, is_mark, is_month, is_strike};
use word::strike::{Marks, Strike, is_marked};

// Whether the numbers that name a strike are within their limits.
fn is_place(c: u32, m: u32, h: u32) -> bool
    ensures { result ≡ is_place c m h }
{
    is_class_number(c) & (is_month(m) & is_strike(h))
}

// Whether the words used have a strike there.
fn is_strike_at(run: &[u32], at: usize) -> bool
    requires { T (is_book run.now) }
    ensures { result
        ≡ (ltb at (used (facts_of run.now)) && is_of_kind strike_kind (get_or run.now at 0)) }
{
    if head::used(run) <= at {
        return false;
    }
    is_of_kind(run[at], STRIKE)
}

// What the conditions before the rules and then the rules say of a strike that was looked up: 5, 6, 8, 11, 12, 13 or
// its ground. Of the standing strikes of its expiration only the next one below it and the next one above it bear on
// it.
fn judge_found(run: &[u32], figures: ClassRecord, found: StrikeSearch, m: u32, h: u32) -> Answer
    requires { Sought run.now figures found m h }
    ensures { (x : Sought run.now figures found m h)
        → result ≡ judged m h (view_of x.number (facts_of run.now)) }
{
    let words = &run[..];
    let setting = Setting {
        class: figures,
        current: head::current(words),
        month: m,
    };
    if setting.is_outside() {
        return Err(Refusal::MonthOutside);
    }
    if found.standing {
        return Err(Refusal::AlreadyStanding);
    }
    if figures.close == 0 {
        return Err(Refusal::NoClose);
    }
    let at = found.at;
    let from = if found.expiration && is_strike_at(words, at - 1) {
        at - 1
    } else {
        at
    };
    let to = if is_strike_at(words, at) { at + 1 } else { at };
    judge(setting, Strike(h), &words[from..to])
}

// `J`: the judgement of a strike.
pub fn judge_strike(run: &[u32], c: u32, m: u32, h: u32, places: &mut [u32]) -> Answer
    requires { T (is_book run.now) }
    ensures { Made (on c (call_j m h)) run.now [] result run.now [] }
{
    let words = &run[..];
    if !is_place(c, m, h) {
        return Err(Refusal::BeyondLimits);
    }
    let class = find_class(words, places, c)?;
    let found = look_up_strike(words, class.at, m, h);
    judge_found(words, class.figures, found, m, h)
}

// `L`: adds a strike.
pub fn list_strike(run: &mut [u32], c: u32, m: u32, h: u32, places: &mut [u32]) -> Answer
    requires { T (is_book run.old) }
    ensures { Made (on c (call_l m h)) run.old [] result run.new [] }
{
    if !is_place(c, m, h) {
        return Err(Refusal::BeyondLimits);
    }
    let class = find_class(run, places, c)?;
    let found = look_up_strike(run, class.at, m, h);
    let accepted = judge_found(run, class.figures, found, m, h)?;
    let Accepted::Ground(g) = accepted else {
        return Ok(accepted);
    };
    let needed = if found.expiration { 1 } else { 2 };
    if run.len() < head::used(run) + needed {
        return Err(Refusal::OutOfWords(0));
    }
    insert_strike(run, found.at, found.expiration, m, h, g);
    Ok(accepted)
}

// `X`: delists a strike.
pub fn delist_strike(run: &mut [u32], c: u32, m: u32, h: u32, places: &mut [u32]) -> Answer
    requires { T (is_book run.old) }
    ensures { Made (on c (call_x m h)) run.old [] result run.new [] }
{
    if !is_place(c, m, h) {
        return Err(Refusal::BeyondLimits);
    }
    let class = find_class(run, places, c)?;
    let found = look_up_strike(run, class.at, m, h);
    if !found.standing {
        return Err(Refusal::NotStanding);
    }
    let at = found.at;
    if is_marked(run[at]) {
        return Err(Refusal::OpenInterest);
    }
    let alone = !is_strike_at(run, at - 1) & !is_strike_at(run, at + 1);
    delist(run, at, alone);
    Ok(Accepted::Done)
}

// `I`: sets the marks of open interest.
pub fn mark_strike(
    run: &mut [u32],
    c: u32,
    m: u32,
    h: u32,
    marks: Marks,
    places: &mut [u32],
) -> Answer
    requires { T (is_book run.old) }
    ensures { Made (on c (call_i m h marks.put marks.call)) run.old [] result run.new [] }
{
    if !(is_place(c, m, h) & (is_mark(marks.put) & is_mark(marks.call))) {
        return Err(Refusal::BeyondLimits);
    }
    let class = find_class(run, places, c)?;
    let found = look_up_strike(run, class.at, m, h);
    if !found.standing {
        return Err(Refusal::NotStanding);
    }
    store_marks(run, found.at, marks.put, marks.call);
    Ok(Accepted::Done)
}

// `A`: writes the permitted strikes to the second run.
pub fn list_permitted(run: &[u32], second: &mut [u32], c: u32, m: u32, places: &mut [u32]) -> Answer
    requires { T (is_book run.now) }
    ensures { Made (on c (call_a m)) run.now second.old
        result run.now second.new }
{
    let words = &run[..];
    if !(is_class_number(c) & is_month(m)) {
        return Err(Refusal::BeyondLimits);
    }
    let class = find_class(words, places, c)?;
    let setting = Setting {
        class: class.figures,
        current: head::current(words),
        month: m,
    };
    if setting.is_outside() {
        return Err(Refusal::MonthOutside);
    }
    if class.figures.close == 0 {
        return Err(Refusal::NoClose);
    }
    let found = look_up_expiration(words, class.at, m);
    permitted::list_permitted(setting, &words[found.from..found.to], second)
}
