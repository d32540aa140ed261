// The distance that a new strike keeps from those of its expiration.
ghost use Rattle.std.specs.Prelude.{◌≡◌, ◌^◌, ◌<◌};
ghost use Rattle.word.specs.Kinds.{strike_kind};
ghost use Rattle.rule.specs.Spacing.{crowds, counts_as_standard, clears, standing_of};
ghost use Rattle.rule.specs.Judgement.{Judged};

use crate::amounts::{FIVE_DOLLARS, ONE_DOLLAR, TWO_FIFTY};
use crate::terms::Setting;
use word::field::field_of;
use word::grounds::{DOLLAR_GROUND, STANDARD_GROUND, TWO_FIFTY_GROUND};
use word::kind::{STRIKE, key_of};
use word::strike::{GROUND, HALF_DOLLAR, Strike};

// Whether a Dollar strike is too near to a Standard strike at an odd multiple of $2.50.
fn is_crowded(dollar: Strike, standard: Strike) -> bool
    requires { (dollar.0 < 2 ^ strike_kind.width) × (standard.0 < 2 ^ strike_kind.width) }
    ensures { result ≡ crowds dollar.0 standard.0 }
{
    let d = dollar.cents();
    let k = standard.cents();
    (k % FIVE_DOLLARS == TWO_FIFTY) & (d.abs_diff(k) <= HALF_DOLLAR)
}

fn counts_as_standard(g: u32) -> bool
    ensures { result ≡ counts_as_standard g }
{
    matches!(g, STANDARD_GROUND | TWO_FIFTY_GROUND)
}

// Whether the strike, on the ground g, may stand beside the strike of the word w.
pub fn is_clear(s: Setting, g: u32, strike: Strike, w: u32) -> bool
    requires { Judged s strike.0 }
    ensures { result ≡ clears s g strike.0 (standing_of w) }
{
    let other = Strike(key_of(w, STRIKE));
    let ground = field_of(w, GROUND);
    !((g == DOLLAR_GROUND) & counts_as_standard(ground) & is_crowded(strike, other))
        & !(counts_as_standard(g) & (ground == DOLLAR_GROUND) & is_crowded(other, strike))
        & !(s.is_long() & (strike.cents().abs_diff(other.cents()) <= ONE_DOLLAR))
}
