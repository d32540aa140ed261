// Whether a run of words is a book, in nested loops over raw words; and a fresh book made of any run.
#![tactic(auto)]

ghost use Rattle.std.specs.Prelude.{◌≡◌, ◌↔◌, ◌≤◌, length, T};
ghost use Rattle.word.specs.Limits.{last_month, longest_run};
ghost use Rattle.word.specs.Head.{first_place};
ghost use Rattle.book.specs.Books.{is_book};
ghost use Rattle.book.specs.Made.{Begun};
ghost use Rattle.scan.specs.Stretches.{AllClasses, Scannable, Stretched, are_counted, are_strikes, counted_end};

use crate::ahead::Ahead;
use crate::all_zero::are_zero;
use word::answer::{Accepted, Answer, Refusal};
use word::caps::{DollarCount, HalfCount, TwoFiftyCount};
use word::codec::expiration_word;
use word::counter::Counts;
use word::field::field_of;
use word::kind::{CLASS, EXPIRATION, STRIKE, is_of_kind, key_of};
use word::limits::{is_length, latest_month};
use word::programs::{DOLLAR_BITS, HALF_BITS, Program, TWO_FIFTY_BITS};
use word::strike::{Strike, is_first_strike};
use word::{counter, figures, head};

mod ahead;
mod all_zero;

// Whether the words from `first` to `last`, each of which follows the one before it as strikes do, are strikes of a
// book: the first is one, none is 0 and none is above the highest.
fn are_strikes(first: u32, last: u32) -> bool
    ensures { result ≡ are_strikes first last }
{
    is_first_strike(first) & (key_of(last, STRIKE) <= Strike::HIGHEST.0)
}

// What is ahead of where the expirations end that start at `from.at`, each with its strikes; none where they are no
// expirations of a book. An expiration word is compared as a whole with those of the first and the last month that may
// follow.
fn expirations_end(current: u32, from: Ahead<'_>) -> Option<Ahead<'_>>
    requires { current ≤ last_month }
    ensures { Stretched current from.entry.words.now from.entry.at result }
{
    let s = from.words;
    let latest = expiration_word(latest_month(current));
    let mut least = expiration_word(current);
    let mut ahead = from;
    // No `for`: a turn passes an expiration and all of its strikes.
    while ahead.at < s.len() {
        let i = ahead.at;
        let w = s[i];
        if !(least..=latest).contains(&w) {
            if is_of_kind(w, EXPIRATION) {
                return None;
            }
            return Some(ahead);
        }
        ahead = ahead.next_other();
        let next = ahead.at;
        if next == i + 1 {
            return None;
        }
        if !are_strikes(s[i + 1], s[next - 1]) {
            return None;
        }
        least = w + 1;
    }
    Some(ahead)
}

// Whether the words from the first class on are those of classes, as many ours as the counters say, within the caps.
fn are_classes(current: u32, s: &[u32]) -> bool
    requires { Scannable current s.now }
    ensures { T result ↔ AllClasses current s.now }
{
    let mut ahead = Ahead::new(s, head::FIRST);
    let mut last = 0;
    let mut dollars = DollarCount::of(0);
    let mut halves = HalfCount::of(0);
    let mut two_fifties = TwoFiftyCount::of(0);
    // No `for`: a turn passes a class and all of its expirations.
    while ahead.at < s.len() {
        let i = ahead.at;
        let w = s[i];
        if s.len() - i < figures::LENGTH {
            return false;
        }
        if !figures::are_figures(s, i, last) {
            return false;
        }
        last = key_of(w, CLASS);
        dollars = dollars.counted(field_of(w, DOLLAR_BITS));
        halves = halves.counted(field_of(w, HALF_BITS));
        two_fifties = two_fifties.counted(field_of(w, TWO_FIFTY_BITS));
        let Some(next) = expirations_end(current, ahead.skip_to(i + figures::LENGTH)) else {
            return false;
        };
        ahead = next;
    }
    (dollars.0 == counter::read(s, Program::Dollar).own)
        & ((halves.0 == counter::read(s, Program::Half).own)
            & ((two_fifties.0 == counter::read(s, Program::TwoFifty).own)
                & !(dollars.is_exceeded() | halves.is_exceeded() | two_fifties.is_exceeded())))
}

// Whether the counters say the strikes among the words from the first class on.
fn are_counted(s: &[u32]) -> bool
    requires { (first_place ≤ length s.now) × (length s.now ≤ longest_run) }
    ensures { result ≡ are_counted s.now }
{
    let said = counter::strikes_said(s);
    let among = counter::strikes_among(&s[head::FIRST..]);
    said == among
}

// How many words strikes are counted of at once.
const COUNTED: usize = 8;

// Up to where the strikes are counted: past the words used, which zeros follow, so that none is counted singly; or to
// the end.
fn counted_end(used: usize, n: usize) -> usize
    requires { (first_place ≤ used) × ((used ≤ n) × (n ≤ longest_run)) }
    ensures { result ≡ counted_end used n }
{
    (head::FIRST + (used - head::FIRST).next_multiple_of(COUNTED)).min(n)
}

// Whether the run is a book.
pub fn is_book(run: &[u32]) -> bool
    ensures { result ≡ is_book run.now }
{
    let n = run.len();
    if !is_length(n) {
        return false;
    }
    if !head::is_head(run) {
        return false;
    }
    let used = head::used(run);
    if !are_classes(head::month(run), &run[..used]) {
        return false;
    }
    let end = counted_end(used, n);
    are_counted(&run[..end]) & are_zero(&run[used..])
}

// Makes a fresh book of the run, whatever it held; a run of a bad length is refused and keeps its words.
pub fn fresh(run: &mut [u32]) -> Answer
    ensures { Begun run.old result run.new }
{
    let n = run.len();
    if !is_length(n) {
        return Err(Refusal::NotABook);
    }
    run.fill(0);
    head::write(run, 0, head::FIRST);
    counter::write(run, Program::Dollar, Counts::NONE);
    counter::write(run, Program::Half, Counts::NONE);
    counter::write(run, Program::TwoFifty, Counts::NONE);
    Ok(Accepted::Done)
}
