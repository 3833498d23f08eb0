// Helpers on f64, over std's methods where there are such. They stay beside them for the names of specs/Floats.antt, by which everything above speaks of floats, and as
// std's ask for a number (the sign) or leave the sign of a zero open (the smaller and the larger).

ghost use Rattle.std.specs.Prelude.{◌≡◌};
ghost use Rattle.angles.specs.Floats.{sign_of, finite_of, abs_of, signed_of, min_of, max_of};

use root::patterns;

// Whether the sign bit of x is set.
pub fn sign(x: f64) -> bool
    ensures { result ≡ sign_of x }
{
    !x.is_nan() && x.is_sign_negative()
}

pub fn is_finite(x: f64) -> bool
    ensures { result ≡ finite_of x }
{
    x.is_finite()
}

pub fn abs(x: f64) -> f64
    ensures { result ≡ abs_of x }
{
    x.abs()
}

// The same by the pattern, for an x of a sign that can't be foreseen: std's compares with 0, which is faster where it can.
pub fn size(x: f64) -> f64
    ensures { result ≡ abs_of x }
{
    if x.is_nan() {
        return x;
    }
    f64::from_bits(x.to_bits() % patterns::SIGN)
}

// x with its sign bit set or cleared.
#[tactic(auto, unfolding(crate::specs::Floats::signed_of))]
pub fn signed(set: bool, x: f64) -> f64
    ensures { result ≡ signed_of set x }
{
    let a = abs(x);
    if set { -a } else { a }
}

pub fn min(x: f64, y: f64) -> f64
    ensures { result ≡ min_of x y }
{
    if x.is_nan() | (y < x) { y } else { x }
}

pub fn max(x: f64, y: f64) -> f64
    ensures { result ≡ max_of x y }
{
    if x.is_nan() | (x < y) { y } else { x }
}
