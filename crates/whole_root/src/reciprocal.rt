// The whole number nearest to a root, with no division but by powers of two: the root's reciprocal gives the first 31 digits of the root, or a little
// less, and then the other 22.

ghost use Rattle.std.specs.Prelude.{◌+◌, ◌*◌, ◌^◌, ◌<◌, IfSome};
ghost use Rattle.whole_root.specs.Roots.{IsNearest};
ghost use Rattle.whole_root.specs.Reciprocal.{Begun};

use super::Radicand;

// From s and what it leaves of a number, d, to the whole number nearest to the root of that number times 2 ^ 44, with an r near to 2 ^ 62 / s, if p is
// good: the quotient d * 2 ^ 21 / s or a little less. With q = s * 2 ^ 22 + p the number times 2 ^ 44 is q² + u * 2 ^ 23 - p², which lies above q² - q and,
// where u is at most half as much again as s, is at most q² + 3 * q: one comparison rounds.
fn last_turn(s: u64, d: u64, r: u64) -> Option<u64>
    requires begun { Begun s d }
    requires reciprocal { r < 2 ^ 32 }
    ensures { IfSome result (IsNearest ((s * s + d) * 2 ^ 44)) }
{
    let n = d * 0x20_0000;
    // Four digits of d are cut off, so that the product fits a word.
    let p = d / 16 * r / 0x20_0000_0000;
    if n < p * s {
        return None;
    }
    let u = n - p * s;
    if 3 * s < 2 * u {
        return None;
    }
    let q = s * 0x40_0000 + p;
    Some(q + ((q + p * p < u * 0x80_0000) as u64))
}

// The whole number nearest to the root of m * 2 ^ 52, if the estimate that the pattern chooses is good.
pub fn nearest_root(of: Radicand, pattern: u64) -> Option<u64>
    ensures { IfSome result (IsNearest (of.m * 2 ^ 52)) }
{
    let r = root_estimate::reciprocal_root(pattern);
    let s = of.m / 0x40_0000 * r / 0x1_0000_0000;
    // Comparisons, here and in `last_turn`: with `checked_sub` a root takes a twelfth longer.
    let x = of.m * 256;
    if x < s * s {
        return None;
    }
    let d = x - s * s;
    if 0x7_ffff_ffff < d {
        return None;
    }
    last_turn(s, d, r)
}
