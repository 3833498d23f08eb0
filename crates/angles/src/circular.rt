// Sine and cosine together, as document 01's "Root and angles" has them.

ghost use Rattle.std.specs.Prelude.{◌≡◌};
ghost use Rattle.angles.specs.Circular.{sine_series, cosine_series, within_quarter_turn, quarter_turns, turned_by, signed_sine, sin_cos_of};

use super::{HALF_PI, QUARTER_PI, float, series};

#[derive(Clone, Copy)]
pub struct SinCos {
    pub sin: f64,
    pub cos: f64,
}

fn sine_series(r: f64) -> f64
    ensures { result ≡ sine_series r }
{
    let s = series::horner(
        r * r,
        1.0 / 355687428096000.0,
        &[
            -1.0 / 1307674368000.0,
            1.0 / 6227020800.0,
            -1.0 / 39916800.0,
            1.0 / 362880.0,
            -1.0 / 5040.0,
            1.0 / 120.0,
            -1.0 / 6.0,
            1.0,
        ],
    );
    s * r
}

fn cosine_series(r: f64) -> f64
    ensures { result ≡ cosine_series r }
{
    series::horner(
        r * r,
        -1.0 / 6402373705728000.0,
        &[
            1.0 / 20922789888000.0,
            -1.0 / 87178291200.0,
            1.0 / 479001600.0,
            -1.0 / 3628800.0,
            1.0 / 40320.0,
            -1.0 / 720.0,
            1.0 / 24.0,
            -1.0 / 2.0,
            1.0,
        ],
    )
}

// Sine and cosine of an r from 0 to π/2: past π/4 they are cosine and sine of what is left to π/2.
#[tactic(auto, unfolding(crate::specs::Circular::within_quarter_turn))]
fn within_quarter_turn(r: f64) -> SinCos
    ensures { result ≡ within_quarter_turn r }
{
    let past = r > QUARTER_PI;
    let q = if past { HALF_PI - r } else { r };
    let sin = sine_series(q);
    let cos = cosine_series(q);
    if past {
        SinCos { sin: cos, cos: sin }
    } else {
        SinCos { sin, cos }
    }
}

// How many quarter turns, 0 to 3, there are in a.
pub fn quarter_turns(a: f64) -> u8
    ensures { result ≡ quarter_turns a }
{
    if 3.0 * HALF_PI <= a {
        3
    } else if 2.0 * HALF_PI <= a {
        2
    } else if 1.0 * HALF_PI <= a {
        1
    } else {
        0
    }
}

impl SinCos {
    // Sine and cosine of an angle that is k quarter turns larger.
    fn turned_by(self, k: u8) -> SinCos
        ensures { result ≡ turned_by k self }
    {
        match k {
            0 => self,
            1 => SinCos {
                sin: self.cos,
                cos: -self.sin,
            },
            2 => SinCos {
                sin: -self.sin,
                cos: -self.cos,
            },
            _ => SinCos {
                sin: -self.cos,
                cos: self.sin,
            },
        }
    }

    // Sine and cosine of v, from those of |v|.
    #[tactic(auto, unfolding(crate::specs::Circular::signed_sine))]
    fn signed(self, set: bool) -> SinCos
        ensures { result ≡ signed_sine set self }
    {
        if set {
            SinCos {
                sin: -self.sin,
                cos: self.cos,
            }
        } else {
            self
        }
    }
}

pub fn sin_cos(v: f64) -> SinCos
    ensures { result ≡ sin_cos_of v }
{
    if v.is_nan() {
        return SinCos { sin: v, cos: v };
    }
    let a = float::size(v);
    let k = quarter_turns(a);
    let r = a - (k as f64) * HALF_PI;
    within_quarter_turn(r).turned_by(k).signed(float::sign(v))
}
