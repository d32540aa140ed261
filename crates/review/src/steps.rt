// The review of the words of a class's series in steps of one strike: the highest month first, and in it the highest
// strike.
ghost use Rattle.std.specs.Prelude.{◌≡◌, suc, ◌<◌, ◌≤◌, length};
ghost use Rattle.word.specs.Field.{field};
ghost use Rattle.word.specs.Kinds.{key_of, strike_kind, ground_field, put_field, call_field};
ghost use Rattle.word.specs.Limits.{highest_price};
ghost use Rattle.review.specs.Marks.{near_strikes, stays};
ghost use Rattle.review.specs.StepStates.{Reached, lifted, lifted_to};
ghost use Rattle.review.specs.ReviewsAsked.{Steppable, Stepping};

use crate::marks::{Bounds, LastStrikes, last_strikes};
use std::mem;
use word::field::field_of;
use word::grounds::{DOLLAR_GROUND, WING_GROUND};
use word::kind::{STRIKE, key_of};
use word::strike::{GROUND, HALF_DOLLAR, is_marked};

// In cents: a strike no farther from the close stays in its review.
const REVIEW_DISTANCE: u32 = 500;

// The strikes that are no farther from a close.
fn near_strikes(close: u32) -> Bounds
    requires { close ≤ highest_price }
    ensures { result ≡ near_strikes close }
{
    Bounds {
        lowest: close.saturating_sub(REVIEW_DISTANCE).div_ceil(HALF_DOLLAR),
        above: (close + REVIEW_DISTANCE) / HALF_DOLLAR + 1,
    }
}

// How far a review is. The words before `read` are to be read, those from `written` on are what stays of the others,
// and the words between are free: zero.
#[derive(Clone, Copy)]
pub struct ReviewState {
    pub read: usize,
    pub written: usize,
    // The strikes of the expiration that is read next.
    pub last: LastStrikes,
    // Where the words of later expirations begin: a strike of this one stays where `written` is below it.
    pub top: usize,
    // How many expirations have lost all their strikes.
    pub emptied: usize,
}

// Whether the strike of the word w stays in the review, by the strikes near the close and the marked ones of its
// expiration.
fn does_stay(near: Bounds, marked: Bounds, w: u32) -> bool
    ensures { result
        ≡ stays near marked (key_of strike_kind w) (field w ground_field) (field w put_field) (field w call_field) }
{
    let reviewed = matches!(field_of(w, GROUND), DOLLAR_GROUND | WING_GROUND);
    if !reviewed | is_marked(w) {
        return true;
    }
    let h = key_of(w, STRIKE);
    !(near.is_beyond(h) & marked.is_beyond(h))
}

// Takes the word at `at` out and, where it stays, puts it before `written`. Returns where what stays then begins.
fn lift(words: &mut [u32], at: usize, written: usize, stays: bool) -> usize
    requires { (at < written) × (written ≤ length words.old) }
    ensures { (result ≡ lifted_to written stays)
        × (words.new ≡ lifted at written stays words.old) }
{
    let w = mem::take(&mut words[at]);
    if stays {
        let to = written - 1;
        words[to] = w;
        to
    } else {
        written
    }
}

// One step: the highest strike that is not reviewed yet. With the lowest of an expiration its word goes too, or goes up
// before those of its strikes that stay.
fn review_step(words: &mut [u32], near: Bounds, k: ReviewState) -> ReviewState
    requires { Stepping near words.old k }
    ensures { (x : Stepping near words.old k)
        → Reached (suc x.steps) x.class words.new result }
{
    let at = k.read - 1;
    let stays = does_stay(near, k.last.bounds, words[at]);
    let written = lift(words, at, k.written, stays);
    if at == k.last.first {
        let start = at - 1;
        let kept = written < k.top;
        let all = lift(words, start, written, kept);
        return ReviewState {
            read: start,
            written: all,
            last: last_strikes(&words[..start]),
            top: all,
            emptied: k.emptied + usize::from(!kept),
        };
    }
    ReviewState {
        read: at,
        written,
        ..k
    }
}

// The first n steps, or all of them.
pub fn review_steps(words: &mut [u32], close: u32, n: usize) -> ReviewState
    requires { Steppable close words.old }
    ensures { (x : Steppable close words.old) → Reached n x.class words.new result }
{
    let near = near_strikes(close);
    let end = words.len();
    let last = last_strikes(words);
    let mut k = ReviewState {
        read: end,
        written: end,
        last,
        top: end,
        emptied: 0,
    };
    for _ in 0..n {
        if k.read == 0 {
            break;
        }
        k = review_step(words, near, k);
    }
    k
}
