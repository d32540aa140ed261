// The judgement of a strike beside the standing strikes of its expiration.
ghost use Rattle.std.specs.Prelude.{◌≡◌, map, ◌<◌, ◌≤◌, length, MatchOption};
ghost use Rattle.word.specs.Limits.{highest_price};
ghost use Rattle.rule.specs.Grids.{grounds};
ghost use Rattle.rule.specs.Spacing.{standing_of};
ghost use Rattle.word.specs.Answers.{is_accepted};
ghost use Rattle.rule.specs.Judgement.{Judged, refusal_of, decided, judgement, first_ground, found_rows, rows_at, either_row, either_rows};

use crate::amounts::FIVE_DOLLARS;
use crate::bounds::{BY_FIVE_DOLLARS, low_end};
use crate::grids::{on_dollar, on_half, on_standard, on_two_fifty, on_wing};
use crate::spacing::is_clear;
use crate::terms::Setting;
use word::answer::{Accepted, Answer, Refusal};
use word::strike::Strike;

// How many grounds there are.
const GROUNDS: usize = 5;

// Whether a strike passes the grid, the range and the spacing of a ground. No struct with these names: what `decide`
// promises is said of lists of three (`decided` of rule Judgement).
pub type Row = [bool; 3];

// The rows of the grounds, from 0 up.
pub type Rows = [Row; GROUNDS];

// Nothing passes.
const FAILS: Row = [false; 3];

// The refusal where no row passes.
fn refusal_of(rows: Rows) -> Refusal
    ensures { result ≡ refusal_of rows }
{
    if rows.iter().any(|&[grid, range, _]| grid & range) {
        Refusal::TooClose
    } else if rows.iter().any(|&[grid, ..]| grid) {
        Refusal::OutOfRange
    } else {
        Refusal::OffGrid
    }
}

// The ground or the refusal, from the rows of the grounds.
pub fn decide(rows: Rows) -> Answer
    ensures { result ≡ decided rows }
{
    let found = rows
        .iter()
        .position(|&[grid, range, spacing]| grid & range & spacing);
    match found {
        Some(g) => Ok(Accepted::Ground(g as u32)),
        None => Err(refusal_of(rows)),
    }
}

// Grid and range of each ground at the price p. The range counts only on the grid, where it is told by its ends. The
// spacing is still to be found. Compiled into both its calls: what a call hands back would go through memory.
#[inline(always)]
fn rows_at(s: Setting, p: u32, strike: Strike) -> Rows
    requires { Judged s strike.0 × (p ≤ highest_price) }
    ensures { result ≡ rows_at s p strike.0 }
{
    let h = strike.0;
    let k = strike.cents();
    let low = low_end(p);
    let high = s.high_end(p);
    let ranged = (low <= h) & (h <= high);
    let standard = on_standard(s.class, k);
    if s.is_long() {
        let wing = on_wing(s, p, k);
        let base = k / FIVE_DOLLARS * BY_FIVE_DOLLARS;
        return [
            [standard, standard & ranged, false],
            FAILS,
            FAILS,
            [
                wing,
                wing & (low <= base) & (base + BY_FIVE_DOLLARS <= high),
                false,
            ],
            FAILS,
        ];
    }
    let dollar = on_dollar(s, k);
    let half = on_half(s, k);
    let two_fifty = on_two_fifty(s, k);
    [
        [standard, standard & ranged, false],
        [dollar, dollar & ranged, false],
        [half, half & (low <= h) & (h <= s.half_end(p)), false],
        FAILS,
        [two_fifty, two_fifty & ranged, false],
    ]
}

// Grid and range of a ground at one price or at the other.
fn either(a: Row, b: Row) -> Row
    ensures { result ≡ either_row a b }
{
    [a[0] | b[0], a[1] | b[1], false]
}

// The same of all grounds. By index: tried `array::from_fn`, but the proof isn't told what arrays a closure gives.
fn either_rows(a: Rows, b: Rows) -> Rows
    ensures { result ≡ either_rows a b }
{
    let mut rows = [FAILS; GROUNDS];
    for g in 0..GROUNDS {
        rows[g] = either(a[g], b[g]);
    }
    rows
}

// Grid and range of each ground, at the day's low or at its high; where these are one price the rules are read once.
fn rows_of(s: Setting, strike: Strike) -> Rows
    requires { Judged s strike.0 }
    ensures { result ≡ found_rows s strike.0 (length grounds) }
{
    let low = rows_at(s, s.class.low, strike);
    if s.class.low == s.class.high {
        return low;
    }
    either_rows(low, rows_at(s, s.class.high, strike))
}

// The first ground that passes the grid and the range of its row, and the spacing beside the words of the standing
// strikes. Nested, with labels, as the rules' paper names this form: tried, `find` with `all` inside, which is shorter.
fn first_ground(s: Setting, strike: Strike, rows: Rows, standing: &[u32]) -> Option<usize>
    requires { Judged s strike.0 × (rows ≡ found_rows s strike.0 (length grounds)) }
    ensures { let first = first_ground s (map standing_of standing.now) strike.0 in
        MatchOption result (first ≡ length grounds) (λ g. (g < length grounds) × (g ≡ first)) }
{
    'found: {
        'grounds: for g in 0..GROUNDS {
            let [grid, range, _] = rows[g];
            if grid & range {
                for w in standing {
                    if !is_clear(s, g as u32, strike, *w) {
                        continue 'grounds;
                    }
                }
                break 'found Some(g);
            }
        }
        None
    }
}

// The judgement of the strike beside the words of the standing strikes of its expiration: the rows decide, once that of
// the ground which the search finds passes.
pub fn judge(s: Setting, strike: Strike, standing: &[u32]) -> Answer
    requires { Judged s strike.0 }
    ensures { result ≡ judgement s (map standing_of standing.now) strike.0 }
{
    let mut rows = rows_of(s, strike);
    if let Some(g) = first_ground(s, strike, rows, standing) {
        rows[g] = [true; 3];
    }
    decide(rows)
}

// Whether the rules accept the strike beside the words of the standing strikes of its expiration.
pub fn is_accepted(s: Setting, strike: Strike, standing: &[u32]) -> bool
    requires { Judged s strike.0 }
    ensures { result ≡ is_accepted (judgement s (map standing_of standing.now) strike.0) }
{
    judge(s, strike, standing).is_ok()
}
