// Where a class, an expiration and a strike stand in a book, or would stand.
#![tactic(auto, using(crate::proofs::Heads::book_room))]

ghost use Rattle.std.specs.Prelude.{◌≡◌, ◌+◌, ◌-◌, ◌<◌, ◌≤◌, true, false, MatchOption, IfOk, MatchResult, T, drop, get_or, length, take};
ghost use Rattle.word.specs.Limits.{is_class_number, is_strike};
ghost use Rattle.word.specs.Kinds.{class_kind};
ghost use Rattle.book.specs.Facts.{is_class_open};
ghost use Rattle.book.specs.Layout.{facts_of, used};
ghost use Rattle.book.specs.Books.{is_book};
ghost use Rattle.book.specs.Places.{ClassBegins, class_place, has_expiration, strikes_place};
ghost use Rattle.logic.specs.Lists.{first_at};
ghost use Rattle.place.specs.Search.{is_from};
ghost use Rattle.place.specs.Lookups.{AfterHead, ClassAbsent, ClassFound, Searchable, expiration_of, strike_search_of};

use crate::head;
use crate::search::{first, first_rising, found_near, holds};
use word::answer::Refusal;
use word::class::ClassRecord;
use word::codec::expiration_word;
use word::figures;
use word::head::FIRST;
use word::kind::{CLASS, EXPIRATION, STRIKE, key_of};

// A book of up to this many words is searched without what is remembered: that costs less.
const FEW_WORDS: usize = 256;

// An open class: where its words begin, and what they say of it.
#[derive(Clone, Copy)]
pub struct FoundClass {
    pub at: usize,
    pub figures: ClassRecord,
}

// Where the strikes of an expiration stand; where it has none, both are the index before which its word would stand.
#[derive(Clone, Copy)]
pub struct Expiration {
    pub from: usize,
    pub to: usize,
}

// Where a strike stands, or where its word would be put; whether its expiration has strikes, and whether it is one of
// them. Each has a value whatever stands there, so that none is an `Option`.
#[derive(Clone, Copy)]
pub struct StrikeSearch {
    pub at: usize,
    pub expiration: bool,
    pub standing: bool,
}

// The words used, from an index on.
fn used_from(run: &[u32], from: usize) -> &[u32]
    requires { T (is_book run.now) × (from ≤ used (facts_of run.now)) }
    ensures words { result.now ≡ take (used (facts_of run.now) - from) (drop from run.now) }
    ensures count { length result.now ≡ used (facts_of run.now) - from }
{
    &run[from..head::used(run)]
}

// The word at an index, where it is one of those used.
fn used_word(run: &[u32], at: usize) -> Option<u32>
    requires { T (is_book run.now) }
    ensures { let end = used (facts_of run.now) in
        MatchOption result (end ≤ at) (λ w. (at < end) × (w ≡ get_or run.now at 0)) }
{
    run[..head::used(run)].get(at).copied()
}

// The index of the first class word from `from` on, or the words used.
pub fn next_class(run: &[u32], from: usize) -> usize
    requires { AfterHead run.now from }
    ensures { let end = used (facts_of run.now) in
        (result ≡ from + first_at (is_from class_kind 0) (take (end - from) (drop from run.now))) × (result ≤ end) }
{
    from + first(used_from(run, from), CLASS, 0)
}

// Where the class c stands, or where its words would be put.
fn class_sought(run: &[u32], c: u32) -> usize
    requires { T (is_book run.now) × T (is_class_number c) }
    ensures { result ≡ class_place c (facts_of run.now) }
{
    FIRST + first_rising(used_from(run, FIRST), CLASS, c)
}

// The same, but it is looked for first about `near`, which may be any number.
fn class_near(run: &[u32], near: usize, c: u32) -> usize
    requires { T (is_book run.now) × T (is_class_number c) }
    ensures { result ≡ class_place c (facts_of run.now) }
{
    if FIRST <= near
        && let Some(found) = found_near(used_from(run, FIRST), near - FIRST, CLASS, c)
    {
        return FIRST + found;
    }
    class_sought(run, c)
}

// Where the class c stands, or where its words would be put. `places` holds where classes were found, each in the slot
// that its number has modulo their count, since they move little from call to call; 0 where nothing is known, and no
// `None`, as they are words that C lends. Any numbers will do, and any count of them: they only shorten the search, and
// nothing is said of them afterwards.
pub fn class_at(run: &[u32], places: &mut [u32], c: u32) -> usize
    requires { T (is_book run.now) × T (is_class_number c) }
    ensures { result ≡ class_place c (facts_of run.now) }
{
    if places.is_empty() || head::used(run) <= FEW_WORDS {
        return class_sought(run, c);
    }
    class_remembered(run, places, c)
}

// The same where there are places. Tried: as a part of `class_at`, which then takes longer where there are none.
#[inline(never)]
fn class_remembered(run: &[u32], places: &mut [u32], c: u32) -> usize
    requires { T (is_book run.now) × T (is_class_number c) × (0 < length places.old) }
    ensures { result ≡ class_place c (facts_of run.now) }
{
    let slot = c as usize % places.len();
    let at = class_near(run, places[slot] as usize, c);
    places[slot] = at as u32;
    at
}

// Whether the class c is open, by the word where it would stand.
pub fn is_open_at(run: &[u32], at: usize, c: u32) -> bool
    requires { T (is_book run.now) × (at ≡ class_place c (facts_of run.now)) }
    ensures { result ≡ is_class_open c (facts_of run.now).classes }
{
    used_word(run, at).is_some_and(|w| key_of(w, CLASS) == c)
}

// The class c, or the refusal where it is not open. `places` as for `class_at`.
pub fn find_class(run: &[u32], places: &mut [u32], c: u32) -> Result<FoundClass, Refusal>
    requires { T (is_book run.now) × T (is_class_number c) }
    ensures { MatchResult result (λ x. ClassFound run.now c x.at x.figures) (ClassAbsent (facts_of run.now) c) }
{
    let at = class_at(run, places, c);
    if !is_open_at(run, at, c) {
        return Err(Refusal::NotOpen);
    }
    let figures = figures::read(run, at);
    Ok(FoundClass { at, figures })
}

// Where the strikes of the expiration m of the class at `class` begin; where it has none, as an error, the index before
// which its word would stand.
fn strikes_from(run: &[u32], class: usize, m: u32) -> Result<usize, usize>
    requires { Searchable run.now class m }
    ensures within { IfOk result (λ from. from ≤ used (facts_of run.now)) }
    ensures place { let f = facts_of run.now in
        (x : ClassBegins f class) → MatchResult result
        (λ from. (has_expiration x.number m f ≡ true) × (from ≡ strikes_place x.number m f))
        (λ at. (has_expiration x.number m f ≡ false) × (at ≡ strikes_place x.number m f)) }
{
    let begin = class + figures::LENGTH;
    let at = begin + first(used_from(run, begin), EXPIRATION, m);
    if used_word(run, at) == Some(expiration_word(m)) {
        Ok(at + 1)
    } else {
        Err(at)
    }
}

// The expiration m of the open class at `class`.
pub fn look_up_expiration(run: &[u32], class: usize, m: u32) -> Expiration
    requires { Searchable run.now class m }
    ensures { let f = facts_of run.now in
        (x : ClassBegins f class) → result ≡ expiration_of x.number m f }
{
    match strikes_from(run, class, m) {
        Ok(from) => {
            let to = from + first(used_from(run, from), EXPIRATION, 0);
            Expiration { from, to }
        }
        Err(at) => Expiration { from: at, to: at },
    }
}

// The strike h of the expiration m of the open class at `class`.
pub fn look_up_strike(run: &[u32], class: usize, m: u32, h: u32) -> StrikeSearch
    requires { Searchable run.now class m × T (is_strike h) }
    ensures { let f = facts_of run.now in
        (x : ClassBegins f class) → result ≡ strike_search_of x.number m h f }
{
    match strikes_from(run, class, m) {
        Ok(from) => {
            let at = from + first(used_from(run, from), STRIKE, h);
            let standing = used_word(run, at).is_some_and(|w| holds(w, STRIKE, h));
            StrikeSearch {
                at,
                expiration: true,
                standing,
            }
        }
        Err(at) => StrikeSearch {
            at,
            expiration: false,
            standing: false,
        },
    }
}
