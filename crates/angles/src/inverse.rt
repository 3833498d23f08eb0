// Arctangent, atan2 and acos, as document 01's "Root and angles" has them.

ghost use Rattle.std.specs.Float.Ieee.{neg};
ghost use Rattle.std.specs.Prelude.{◌≡◌};
ghost use Rattle.angles.specs.Inverse.{half_angle, arctangent_of, first_quadrant, reflected_of, atan2_of, acos_of};

use super::{HALF_PI, PI, float, series};
use root::patterns;

// What a direction has, and the opposite one: an angle, or a longitude.
#[derive(Clone, Copy)]
pub struct OfOpposites {
    pub own: f64,
    pub opposite: f64,
}

// From the tangent of an angle to the tangent of its half.
#[tactic(auto, unfolding(crate::specs::Inverse::half_angle))]
fn half_angle(t: f64) -> f64
    ensures { result ≡ half_angle t }
{
    t / (1.0 + root::root(1.0 + t * t))
}

// The arctangent of a t from 0 to 1.
fn arctangent(t: f64) -> f64
    ensures { result ≡ arctangent_of t }
{
    let t = half_angle(half_angle(t));
    let u = t * t;
    let s = series::horner(
        u,
        -1.0 / 23.0,
        &[
            1.0 / 21.0,
            -1.0 / 19.0,
            1.0 / 17.0,
            -1.0 / 15.0,
            1.0 / 13.0,
            -1.0 / 11.0,
            1.0 / 9.0,
            -1.0 / 7.0,
            1.0 / 5.0,
            -1.0 / 3.0,
            1.0,
        ],
    );
    s * t * 4.0
}

// The angle of the point (x, y), neither below 0.
#[tactic(auto, unfolding(crate::specs::Inverse::first_quadrant))]
fn first_quadrant(y: f64, x: f64) -> f64
    ensures { result ≡ first_quadrant y x }
{
    if (y == 0.0) & (x == 0.0) {
        0.0
    } else if y <= x {
        arctangent(y / x)
    } else {
        HALF_PI - arctangent(x / y)
    }
}

#[tactic(auto, unfolding(crate::specs::Inverse::reflected_of))]
fn reflected(set: bool, a: f64) -> f64
    ensures { result ≡ reflected_of set a }
{
    if set { PI - a } else { a }
}

// The angles of (x, y) and of (-x, -y): they differ in the quadrant alone, so the arctangent is worked out once.
#[tactic(auto, unfolding(crate::specs::Inverse::atan2_of))]
pub fn atan2_of_opposites(y: f64, x: f64) -> OfOpposites
    ensures { (result.own ≡ atan2_of y x) × (result.opposite ≡ atan2_of (neg y) (neg x)) }
{
    if float::is_finite(y) & float::is_finite(x) {
        let a = first_quadrant(float::abs(y), float::abs(x));
        let below = float::sign(y);
        let left = float::sign(x);
        OfOpposites {
            own: float::signed(below, reflected(left, a)),
            opposite: float::signed(!below, reflected(!left, a)),
        }
    } else {
        OfOpposites {
            own: patterns::not_a_number(),
            opposite: patterns::not_a_number(),
        }
    }
}

pub fn atan2(y: f64, x: f64) -> f64
    ensures { result ≡ atan2_of y x }
{
    let a = atan2_of_opposites(y, x);
    a.own
}

#[tactic(auto, unfolding(crate::specs::Inverse::acos_of))]
pub fn acos(c: f64) -> f64
    ensures { result ≡ acos_of c }
{
    if (-1.0 <= c) & (c <= 1.0) {
        atan2(root::root((1.0 - c) * (1.0 + c)), c)
    } else {
        patterns::not_a_number()
    }
}
