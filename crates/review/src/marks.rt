// The strikes that words end with, and the bounds of the marked ones.
ghost use Rattle.std.specs.Prelude.{◌≡◌};
ghost use Rattle.word.specs.Field.{field};
ghost use Rattle.word.specs.Kinds.{key_of, strike_kind, put_field, call_field};
ghost use Rattle.review.specs.Marks.{is_beyond, with_strike, EndsWith};

use word::kind::{STRIKE, is_of_kind, key_of};
use word::strike::is_marked;

// The lowest of some strikes, and one more than the highest. Where there is none, the first is more than a strike word
// holds, and the second 0. No `Range<u32>`: what a review has reached (`Reached`) is said of these two by their names.
#[derive(Clone, Copy)]
pub struct Bounds {
    pub lowest: u32,
    pub above: u32,
}

// The strikes that words end with, those of one expiration: the index of the first, and the bounds of the marked ones.
#[derive(Clone, Copy)]
pub struct LastStrikes {
    pub first: usize,
    pub bounds: Bounds,
}

impl Bounds {
    const OF_NONE: Bounds = Bounds {
        lowest: 1 << STRIKE.width,
        above: 0,
    };

    // Whether the strike h is above the highest or below the lowest.
    pub fn is_beyond(self, h: u32) -> bool
        ensures { result ≡ is_beyond self h }
    {
        !(self.lowest..self.above).contains(&h)
    }

    // The bounds with the strike word w.
    fn with_strike(self, w: u32) -> Bounds
        ensures { result ≡ with_strike self (key_of strike_kind w) (field w put_field) (field w call_field) }
    {
        if !is_marked(w) {
            return self;
        }
        let h = key_of(w, STRIKE);
        Bounds {
            lowest: h.min(self.lowest),
            above: self.above.max(h + 1),
        }
    }
}

// The strikes that the words end with.
pub fn last_strikes(words: &[u32]) -> LastStrikes
    ensures { EndsWith words.now result }
{
    let mut bounds = Bounds::OF_NONE;
    for (at, w) in words.iter().enumerate().rev() {
        if !is_of_kind(*w, STRIKE) {
            return LastStrikes {
                first: at + 1,
                bounds,
            };
        }
        bounds = bounds.with_strike(*w);
    }
    LastStrikes { first: 0, bounds }
}
