// The permitted strikes of an expiration: the multiples that the rules can accept, tried one after another beside the
// standing strikes near them.
#![tactic(auto)]

ghost use Rattle.std.specs.Prelude.{◌≡◌, ◌==◌, ◌<◌, ◌≤◌, not, map, length};
ghost use Rattle.std.specs.List.{list_all};
ghost use Rattle.std.proofs.lemmas.List.Edits.{sets};
ghost use Rattle.word.specs.Limits.{highest_price, highest_strike};
ghost use Rattle.rule.specs.Ends.{reach_of};
ghost use Rattle.rule.specs.Spacing.{standing_of};
ghost use Rattle.rule.specs.Judgement.{is_permitted_beside};
ghost use Rattle.permitted.specs.Listing.{Measurable, Listable, Triable, Continuable, Climbable, Continued, Written};
ghost use Rattle.permitted.specs.Listing.{strike_in, next_strike, strikes_below, strikes_from, permitted_beside, range_at, ranges_of, Filled};

use rule::amounts::ONE_DOLLAR;
use rule::bounds::{Rung, Rungs, low_end, most_open};
use rule::judgement::is_accepted;
use rule::terms::Setting;
use word::answer::{Accepted, Answer, Refusal};
use word::kind::{STRIKE, key_of};
use word::strike::{HALF_DOLLAR, Strike};

// A number above all strikes. Tried: with an Option in the place of the next strike `A` takes a fifth longer.
const NO_STRIKE: u32 = 65535;

// The reach of a standing strike in a long expiration, and in a near one.
const LONG_REACH: u32 = ONE_DOLLAR / HALF_DOLLAR;

const NEAR_REACH: u32 = 1;

// The strikes from `low` to `high`. std's RangeInclusive is no plainer: it is not Copy, and calls read its ends.
#[derive(Clone, Copy)]
struct Range {
    low: u32,
    high: u32,
}

// How many words stand before the first whose strike is at least `low`.
fn strikes_below(standing: &[u32], low: u32) -> usize
    ensures within { result ≤ length standing.now }
    ensures value { result ≡ strikes_below standing.now low }
{
    standing
        .iter()
        .take_while(|w| key_of(**w, STRIKE) < low)
        .count()
}

// The words from there on.
fn strikes_from(standing: &[u32], low: u32) -> &[u32]
    ensures { result.now ≡ strikes_from standing.now low }
{
    &standing[strikes_below(standing, low)..]
}

// The first strike, or one above all strikes where there is none.
fn next_strike(standing: &[u32]) -> u32
    ensures { result ≡ next_strike standing.now }
{
    standing.first().map_or(NO_STRIKE, |w| key_of(*w, STRIKE))
}

// Whether the strike h is none of those of the words.
fn is_absent(near: &[u32], h: u32) -> bool
    ensures { result ≡ list_all (λ w. not (strike_in w == h)) near.now }
{
    near.iter().all(|w| key_of(*w, STRIKE) != h)
}

// A list in the making: the strikes that are permitted in a setting, rising.
// Tried: with `Listable` as a ghost field the proof does not close, as nothing is then known of what `out` ends as.
#[derive(Drop)]
struct Listing<'a> {
    setting: Setting,
    // The words of the standing strikes, but for those too far below the strikes to come to bear on these.
    standing: &'a [u32],
    // Where the strikes are written, as far as it has places.
    out: &'a mut [u32],
    // How many are listed.
    count: u32,
}

impl Listing<'_> {
    // How many half dollars away a standing strike can bear on a new one.
    fn reach(&self) -> u32
        ensures { result ≡ reach_of self.now.setting }
    {
        if self.setting.is_long() {
            LONG_REACH
        } else {
            NEAR_REACH
        }
    }

    // Whether `J` would accept the strike h, on which only the standing strikes within reach bear.
    fn is_permitted(&self, h: u32) -> bool
        requires { Triable self.now.setting self.now.standing.now h }
        ensures { result ≡ is_permitted_beside self.now.setting (map standing_of self.now.standing.now) h }
    {
        let end = strikes_below(self.standing, h + self.reach() + 1);
        let near = &self.standing[..end];
        is_absent(near, h) && is_accepted(self.setting, Strike(h), near)
    }

    // Adds a strike, and writes it where there is a place for it.
    // Tried: with `get_mut` the proof does not close, as std does not say what the slice ends as.
    fn write(&mut self, h: u32)
        requires { self.old.count < highest_strike }
        ensures { Written self.old h self.new }
    {
        let at = self.count as usize;
        if at < self.out.len() {
            self.out[at] = h;
        }
        self.count += 1;
    }

    // Goes on with the permitted strikes of the range, which are multiples of the rung's step. One that the rules
    // accept where no strike stands is permitted where none is within reach, and only else it is judged.
    // Tried: by `(first..=range.high).step_by(..)` `A` takes a sixth longer.
    fn write_multiples(&mut self, rung: Rung, range: Range)
        requires { Continuable self.old rung range }
        ensures { Continued self.old range self.new }
    {
        let reach = self.reach();
        let mut next = next_strike(self.standing);
        let mut h = range.low.next_multiple_of(rung.step);
        while h <= range.high {
            if next <= h + reach {
                self.standing = strikes_from(self.standing, h - reach);
                next = next_strike(self.standing);
            }
            let permitted = if h + reach < next {
                rung.all || self.is_permitted(h)
            } else {
                next != h && self.is_permitted(h)
            };
            if permitted {
                self.write(h);
            }
            h += rung.step;
        }
    }

    // Goes on with the permitted strikes of the range, rung by rung, as far as it reaches.
    fn write_range(&mut self, rungs: &Rungs, range: Range)
        requires { Climbable self.old rungs.now range }
        ensures { Continued self.old range self.new }
    {
        let mut low = range.low;
        for rung in rungs {
            if range.high < low {
                break;
            }
            let high = rung.to.min(range.high);
            if low <= high {
                self.write_multiples(*rung, Range { low, high });
                low = high + 1;
            }
        }
    }
}

// The strikes in range at the price p, from `least` on.
fn range_at(s: Setting, p: u32, least: u32) -> Range
    requires { p ≤ highest_price }
    ensures { result ≡ range_at s p least }
{
    Range {
        low: low_end(p).max(least),
        high: s.high_end(p),
    }
}

// The two ranges; where the day's low is its high the second has no strike.
fn ranges_of(s: Setting) -> [Range; 2]
    requires { Measurable s }
    ensures { result ≡ ranges_of s }
{
    let first = range_at(s, s.class.low, 1);
    let above = first.low.max(first.high + 1);
    let second = range_at(s, s.class.high, above);
    [first, second]
}

// Writes the permitted strikes of the range at the day's low and then those above it of that at its high, rising, as
// far as `out` has places, and answers how many there are.
fn write_permitted(s: Setting, standing: &[u32], ranges: [Range; 2], out: &mut [u32]) -> u32
    requires { Listable s standing.now × (ranges ≡ ranges_of s) }
    ensures value { result ≡ length (permitted_beside s standing.now) }
    ensures out_after { out.new ≡ sets out.old 0 (permitted_beside s standing.now) }
{
    let rungs = s.rungs();
    let mut listing = Listing {
        setting: s,
        standing,
        out,
        count: 0,
    };
    for range in ranges {
        listing.write_range(&rungs, range);
    }
    listing.count
}

// Writes the permitted strikes to the second run where it has places for all of them, and nothing else: unless it has a
// place for each that there can be, they are counted before; where that counts none, nothing is left to write.
pub fn list_permitted(s: Setting, standing: &[u32], second: &mut [u32]) -> Answer
    requires { Listable s standing.now }
    ensures { Filled (permitted_beside s standing.now) second.old result second.new }
{
    let ranges = ranges_of(s);
    let [first, above] = ranges;
    if second.len() < most_open(first.high.max(above.high)) as usize {
        let count = write_permitted(s, standing, ranges, &mut []);
        if second.len() < count as usize {
            return Err(Refusal::OutOfWords(count));
        }
        if count == 0 {
            return Ok(Accepted::Listed(count));
        }
    }
    Ok(Accepted::Listed(write_permitted(s, standing, ranges, second)))
}
