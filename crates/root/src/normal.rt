// The root of a positive number on its pattern: the significand is normalised, and its root is packed.

ghost use Rattle.std.specs.Prelude.{◌≡◌, ◌-◌, ◌*◌, ◌/◌, ◌%◌, ◌^◌, ◌≤◌, ◌<◌, IfSome, IsNone};
ghost use Rattle.std.specs.Float.{binary64};
ghost use Rattle.std.specs.Float.Ieee.{of_bits};
ghost use Rattle.root.specs.Root.{root_of};
ghost use Rattle.root.specs.Parts.{IsSpecial, Parted, Told};

use super::patterns::EXPONENT;
use whole_root::digits::{self, Counted};
use whole_root::{Radicand, reciprocal};

// The root of a number is that of `radicand`, packed with k in the exponent's field. The last digit of the exponent's field in `pattern`, and the fraction
// there, choose an estimate.
#[derive(Clone, Copy)]
struct Parts {
    radicand: Radicand,
    k: u64,
    pattern: u64,
}

// Of m * 2 ^ g / 2 ^ 2148, with an m of 53 digits: but for 2 ^ 52, the even part of 2 ^ g is taken off, and half of its places are k.
fn even_parts(m: u64, g: u64, pattern: u64) -> Parts
    requires significand { (2 ^ 52 ≤ m) × (m < 2 ^ 53) }
    requires power { (52 ≤ g) × (g < 3120) }
    ensures { (result.radicand.m ≡ m * 2 ^ (g % 2)) × (result.k ≡ (g - 52) / 2) }
{
    Parts {
        radicand: Radicand { m: m << (g % 2) },
        k: (g - 52) / 2,
        pattern,
    }
}

// The parts of the number with the pattern b, if it is finite and above zero.
fn parts_of(b: u64) -> Option<Parts>
    ensures parts { IfSome result (λ p. Parted b p.radicand.m p.k) }
    ensures none { IsNone result → IsSpecial b }
{
    let e = b / EXPONENT;
    let t = b % EXPONENT;
    // An infinity, a NaN, or a set sign bit.
    if e >= 2047 {
        return None;
    }
    if e > 0 {
        return Some(even_parts(t + EXPONENT, e + 1073, b));
    }
    if t == 0 {
        return None;
    }
    // A subnormal number has no leading digit put before t: t is moved up until its own stands there. In the pattern that digit is one more in the
    // exponent's field, which is then even or odd as a normal number's is.
    let s = (t.leading_zeros() as u64) - 11;
    let m = t << s;
    let g = 1074 - s;
    Some(even_parts(m, g, g * EXPONENT + m))
}

// The pattern of the root of that number, with the digits told, by the digit loop.
pub fn counted(b: u64) -> Option<Counted<u64>>
    ensures told { IfSome result (λ c. Told b c.root c.digits) }
    ensures none { IsNone result → IsSpecial b }
{
    let p = parts_of(b)?;
    let c = digits::counted_root(p.radicand);
    Some(Counted {
        root: p.k * EXPONENT + c.root,
        digits: c.digits,
    })
}

// The pattern of the root of the number with the pattern b, from an estimate, if b is finite and above zero and the estimate is good.
pub fn estimated(b: u64) -> Option<u64>
    ensures value { IfSome result (λ r. of_bits binary64 r ≡ root_of (of_bits binary64 b)) }
    ensures finite { IfSome result (λ r. r < 0x7ff0_0000_0000_0000) }
{
    let p = parts_of(b)?;
    let q = reciprocal::nearest_root(p.radicand, p.pattern)?;
    Some(p.k * EXPONENT + q)
}
