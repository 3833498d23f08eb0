// Horner's rule, for the series of the angle functions.

ghost use Rattle.std.specs.Prelude.{◌≡◌};
ghost use Rattle.angles.specs.Inverse.{horner};

// From s, times u and plus the next coefficient, as long as there is one. Each operation rounds.
#[inline(always)]
pub fn horner(u: f64, s: f64, coefficients: &[f64]) -> f64
    ensures { result ≡ horner u s coefficients.now }
{
    let mut s = s;
    for &k in coefficients {
        s = s * u + k;
    }
    s
}
