// The signs of the slopes at two heights in the equatorial region, where the order of floats settles them: rounding keeps order, so bounds tell on which side of 0 a
// slope lies, and no root is worked out.

ghost use Rattle.std.specs.Prelude.{◌≡◌};
ghost use Rattle.newton.specs.Sides.{size_at, radicand_at, below_cte, above_cte, sides_of};
ghost use Rattle.newton.specs.Signs.{Told};

use angles::float;
use root::patterns;

// dα/dz at z is size_at over the root of radicand_at, for a normal of the height u, which is 0 or above.
#[tactic(auto, unfolding(crate::specs::Sides::size_at))]
fn size_at(z: f64, u: f64) -> f64
    ensures { result ≡ size_at z u }
{
    u + z / (1.0 - z * z) * (z * u)
}

#[tactic(auto, unfolding(crate::specs::Sides::radicand_at))]
fn radicand_at(z: f64, u: f64) -> f64
    ensures { result ≡ radicand_at z u }
{
    (1.0 - u * u) * (1.0 - z * z) - z * u * (z * u)
}

// dα/dz is clearly below cte in size, for a normal of at most the height u.
#[tactic(auto, unfolding(crate::specs::Sides::below_cte))]
fn below_cte(z: f64, u: f64) -> bool
    ensures { result ≡ below_cte z u }
{
    let size = size_at(z, u);
    let g = size * 0.85;
    (g * g < radicand_at(z, u)) & (size < 1.1775 * g)
}

// It is clearly above, for a normal of a height from l to u.
#[tactic(auto, unfolding(crate::specs::Sides::above_cte))]
fn above_cte(z: f64, l: f64, u: f64) -> bool
    ensures { result ≡ above_cte z l u }
{
    let size = size_at(z, l);
    let g = size * 0.848;
    (radicand_at(z, l) < g * g) & (1.179 * g < size) & (0.0 < radicand_at(z, u))
}

// 1, both are clearly on the same side of cte; 2, clearly not; 0, one is not clear.
#[tactic(auto, unfolding(crate::specs::Sides::sides_of))]
fn sides(z1: f64, z2: f64, l: f64, u: f64) -> u8
    ensures { result ≡ sides_of z1 z2 l u }
{
    let b1 = below_cte(z1, u);
    let b2 = below_cte(z2, u);
    let a1 = above_cte(z1, l, u);
    let a2 = above_cte(z2, l, u);
    if (b1 & b2) | (a1 & a2) {
        1
    } else if (b1 & a2) | (a1 & b2) {
        2
    } else {
        0
    }
}

// A Newton step towards 1/√s.
fn nearer(y: f64, s: f64) -> f64 {
    y * (1.5 - 0.5 * s * y * y)
}

// About 1/√s of an s above 0 that is not subnormal, too small by 5e-6 of it at most, which the factors below make up for: two steps from half the exponent. Nothing is
// promised of it, as what it leads to is tested.
fn inverse_root(s: f64) -> f64 {
    if s.is_nan() {
        return s;
    }
    let b = s.to_bits();
    if b > patterns::INFINITY {
        return s;
    }
    let y = f64::from_bits(0x5fe6_eb50_c7b5_37a9 - b / 2);
    nearer(nearer(y, s), s)
}

// Of the slopes at z1 and z2 of the great circle with a normal of the squared norm s and the height cz: 1, they have the same sign; 2, they have not; 0, nothing is
// said, and the slopes themselves decide. The norm lies from lo to hi, which is tested by squares, and the unit normal's height from l to u in size, by products.
pub fn signs_by_order(s: f64, cz: f64, z1: f64, z2: f64) -> u8
    ensures { Told result s cz z1 z2 }
{
    let y = inverse_root(s);
    let lo = s * y * 0.999999;
    let hi = s * y * 1.000006;
    let norm = (0.0 < lo) & (lo <= hi) & (hi <= 4.0) & (lo * lo < s) & (s < hi * hi);
    let a = float::size(cz);
    let l = y * (a * 0.999993);
    let u = y * (a * 1.000012);
    let height = (0.0 < l) & (l <= u) & (u <= 1.0) & (l * hi < a) & (a < u * lo);
    let low = (float::size(z1) <= 0.75) & (float::size(z2) <= 0.75);
    if norm & height & low {
        sides(z1, z2, l, u)
    } else {
        0
    }
}
