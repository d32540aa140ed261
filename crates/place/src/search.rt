// The first word of a kind that holds at least a key, or of a lower kind, 16 words at a time; and the first of a kind
// from a key on, by guesses where the words of the kind rise.
ghost use Rattle.std.specs.Prelude.{◌≡◌, ◌+◌, ◌*◌, ◌^◌, ◌-◌, ◌<◌, ◌≤◌, true, IfSome, T, map, leb, get_or, length};
ghost use Rattle.word.specs.Limits.{longest_run};
ghost use Rattle.word.specs.Digits.{binary};
ghost use Rattle.word.specs.Kinds.{grade_of, is_of_kind, key_of, kind_field};
ghost use Rattle.logic.specs.Lists.{every, first_at};
ghost use Rattle.place.specs.Search.{found_near, Gradable, guess_width, Guessable, is_from, is_holding, is_no_lower, is_up_to};

use word::kind::{Kind, grade, grade_at, is_of_kind, key_of};

// How many words are tested at a time.
const BLOCK: usize = 16;

// How many words about an index are looked at, and how many of them stand before it.
const ABOUT: usize = 32;

const BEFORE: usize = 8;

// By how many words a guess stays before where a key is expected.
const SHORT_OF: usize = 32;

// One guess in so many is the middle.
const TURNS: u32 = 8;

// So many words are searched without a further guess.
const FEW_LEFT: usize = 64;

// Which words of a block are of a grade up to `most`: a bit for each, from bit 1 on. A block has a constant count of
// words, so that this compiles to tests of many words at a time, and no word has bit 0, which would be tested alone.
fn graded_of_16(block: &[u32; BLOCK], kind: Kind, most: u32) -> u32
    requires { kind.width ≤ kind_field.low }
    ensures { result ≡ 2 * binary (map (λ w. leb (grade_of kind w) most) block.now) }
{
    let mut bits = 0;
    for (i, word) in block.iter().enumerate() {
        if grade(*word, kind) <= most {
            bits |= 2 << i;
        }
    }
    bits
}

// The index of the first word of a grade up to `most`, or the length: word by word from `from` on. None stands before.
// Tried: `position` over what is left, and `find` over its indices, which are slower where few words are left.
fn first_plainly(words: &[u32], from: usize, kind: Kind, most: u32) -> usize
    requires { (from ≤ first_at (λ w. leb (grade_of kind w) most) words.now) × (kind.width ≤ kind_field.low) }
    ensures { (result ≡ first_at (λ w. leb (grade_of kind w) most) words.now)
        × (result ≤ length words.now) }
{
    for i in from..words.len() {
        if grade(words[i], kind) <= most {
            return i;
        }
    }
    words.len()
}

// The index of the first word of a lower kind, or of the kind and with at least this key; or the length, and no `None`,
// since a word of the key would be put there too. A block of words at a time.
pub fn first(words: &[u32], kind: Kind, key: u32) -> usize
    requires { Gradable kind key }
    ensures { (result ≡ first_at (is_up_to kind key) words.now) × (result ≤ length words.now) }
{
    let most = grade_at(kind, key);
    let (blocks, _) = words.as_chunks::<BLOCK>();
    for (i, block) in blocks.iter().enumerate() {
        let bits = graded_of_16(block, kind, most);
        if bits != 0 {
            return BLOCK * i + bits.trailing_zeros() as usize - 1;
        }
    }
    first_plainly(words, BLOCK * blocks.len(), kind, most)
}

// Whether a word is of the kind and holds the key.
pub fn holds(w: u32, kind: Kind, key: u32) -> bool
    requires { kind.width ≤ kind_field.low }
    ensures { result ≡ is_holding kind key w }
{
    is_of_kind(w, kind) & (key_of(w, kind) == key)
}

// The index of a word of the kind that holds the key, where it stands at `near` or a few words from it.
pub fn found_near(words: &[u32], near: usize, kind: Kind, key: u32) -> Option<usize>
    requires { Gradable kind key }
    ensures value { result ≡ found_near near kind key words.now }
    ensures holding { IfSome result (λ at. (at < length words.now)
        × (is_holding kind key (get_or words.now at 0) ≡ true)) }
{
    let from = near.checked_sub(BEFORE)?;
    if words.len().saturating_sub(from) <= ABOUT {
        return None;
    }
    if holds(words[near], kind, key) {
        return Some(near);
    }
    let at = from + first(&words[from..from + ABOUT], kind, key);
    holds(words[at], kind, key).then_some(at)
}

// Whether a word is of the kind and holds at least the key.
fn is_from(w: u32, kind: Kind, key: u32) -> bool
    requires { kind.width ≤ kind_field.low }
    ensures { result ≡ is_from kind key w }
{
    is_of_kind(w, kind) & (key <= key_of(w, kind))
}

// The first word of the kind from an index on, where no word is of a lower kind: where it stands, and what it holds.
fn next_held(words: &[u32], from: usize, kind: Kind) -> Option<(usize, u32)>
    requires { Gradable kind 0 × (from ≤ length words.now) × T (every (is_no_lower kind) words.now) }
    ensures { IfSome result (λ p. (from ≤ p.0) × (p.0 < length words.now)
        × (is_of_kind kind (get_or words.now p.0 0) ≡ true) × (p.1 ≡ key_of kind (get_or words.now p.0 0))) }
{
    let next = from + first(&words[from..], kind, 0);
    let held = key_of(*words.get(next)?, kind);
    Some((next, held))
}

// What the next word of a kind behind some words holds: expected, until one is seen that holds more than the key.
#[derive(Clone, Copy)]
enum Above {
    Expected(u32),
    Seen(u32),
}

// What a search by guesses has left: the words from `low` to `high`. The last word of the kind before them holds
// `below`, 0 where there is none; the next one behind them `above`.
#[derive(Clone, Copy)]
struct Left {
    low: usize,
    high: usize,
    below: u32,
    above: Above,
    ghost ordered: { low ≤ high },
    ghost few: { high ≤ longest_run },
    ghost small: { below < 2 ^ guess_width },
}

impl Left {
    // All of `count` words, with twice the key behind them, as if the key were in the middle.
    fn all(count: usize, kind: Kind, key: u32) -> Self
        requires { (count ≤ longest_run) × (kind.width ≤ guess_width) × (key < 2 ^ guess_width) }
        ensures { (result.low ≡ 0) × (result.high ≡ count) }
    {
        Left {
            low: 0,
            high: count,
            below: 0,
            above: Above::Expected((2 * key).min(1 << kind.width)),
        }
    }

    fn span(self) -> usize
        ensures { result ≡ self.high - self.low }
    {
        self.high - self.low
    }

    // Those after one of them, which holds less than the key. Until a word behind them is seen, it is expected to go on
    // as in the words passed; and that stays while words without one of the kind are dropped from behind.
    fn after(self, at: usize, held: u32) -> Self
        requires { (at < self.high) × (held < 2 ^ guess_width) }
        ensures { (result.low ≡ at + 1) × (result.high ≡ self.high) }
    {
        let low = at + 1;
        let above = match self.above {
            Above::Expected(_) => {
                let span = self.high - low;
                Above::Expected(held + held * span as u32 / low as u32)
            }
            Above::Seen(more) => Above::Seen(more),
        };
        Left {
            low,
            high: self.high,
            below: held,
            above,
        }
    }

    // Those before one of them, behind which the next word of the kind holds `above`.
    fn up_to(self, high: usize, above: Above) -> Self
        requires { (self.low ≤ high) × (high ≤ self.high) }
        ensures { (result.low ≡ self.low) × (result.high ≡ high) }
    {
        Left {
            low: self.low,
            high,
            below: self.below,
            above,
        }
    }

    // Where to look among them: a little before where the key is to be expected, since the search goes up from there;
    // in the middle at turn 0, and where what is held on both sides says nothing of the key. Any of them would do: a
    // guess only shortens the search.
    fn guess(self, turn: u32, key: u32) -> usize
        requires { (self.low < self.high) × (key < 2 ^ guess_width) }
        ensures { (self.low ≤ result) × (result < self.high) }
    {
        let middle = self.low + self.span() / 2;
        if turn == 0 {
            return middle;
        }
        let above = match self.above {
            Above::Expected(held) | Above::Seen(held) => held,
        };
        if key < self.below || above <= key {
            return middle;
        }
        let there = self.span() * (key - self.below) as usize / (above - self.below) as usize;
        self.low + there.saturating_sub(SHORT_OF)
    }
}

// The first word of the kind that holds at least the key, where the words of the kind rise: the next word of the kind
// from a guess on decides on which side of the guess the search goes on. A `while`, since no count says by how much the
// words left get fewer.
pub fn first_rising(words: &[u32], kind: Kind, key: u32) -> usize
    requires { Guessable kind key words.now }
    ensures { (result ≡ first_at (is_from kind key) words.now) × (result ≤ length words.now) }
{
    if words.first().is_some_and(|w| is_from(*w, kind, key)) {
        return 0;
    }
    let mut left = Left::all(words.len(), kind, key);
    let mut turn = 1;
    while FEW_LEFT < left.span() {
        let guess = left.guess(turn, key);
        turn = (turn + 1) % TURNS;
        match next_held(&words[..left.high], guess, kind) {
            None => left = left.up_to(guess, left.above),
            Some((next, held)) if held == key => return next,
            Some((next, held)) if held < key => left = left.after(next, held),
            Some((_, held)) => left = left.up_to(guess, Above::Seen(held)),
        }
    }
    left.low + first(&words[left.low..], kind, key)
}
