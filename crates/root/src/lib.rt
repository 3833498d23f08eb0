// The square root of an f64, IEEE 754's, worked out from bits in whole numbers.

#![tactic(auto)]

mod normal;
pub mod patterns;

ghost use Rattle.std.specs.Prelude.{◌≡◌};
ghost use Rattle.std.specs.Float.{binary64};
ghost use Rattle.std.specs.Float.Ieee.{of_bits, to_bits};
ghost use Rattle.root.specs.Root.{root_of};
ghost use Rattle.root.specs.RootDigits.{digits_of};
ghost use Rattle.root.specs.Parts.{IsSpecial};

use whole_root::digits::Counted;

// The square root of the value with the pattern b, which is not both finite and above zero.
fn special_root(b: u64) -> f64
    requires { IsSpecial b }
    ensures { result ≡ root_of (of_bits binary64 b) }
{
    if b == patterns::SIGN {
        return -0.0;
    }
    if b > patterns::INFINITY {
        return patterns::not_a_number();
    }
    f64::from_bits(b)
}

// The square root of x, with how many binary digits of it are told from the leading 1, by the digit loop: the fewest that, with zeros after them, are the
// exact root, 53 where none are, and 0 for a zero, negative, infinite or NaN argument.
pub fn root_told(x: f64) -> Counted<f64>
    ensures { (result.root ≡ root_of x) × (result.digits ≡ digits_of x) }
{
    if x.is_nan() {
        return Counted { root: x, digits: 0 };
    }
    let b = x.to_bits();
    match normal::counted(b) {
        Some(c) => Counted {
            root: f64::from_bits(c.root),
            digits: c.digits,
        },
        None => Counted {
            root: special_root(b),
            digits: 0,
        },
    }
}

// The square root of x where no estimate gives it. It stands by itself so that the proof has its answer as a float.
fn without_estimate(x: f64) -> f64
    ensures { result ≡ root_of x }
{
    root_told(x).root
}

// The square root on bit patterns, for every pattern: a NaN answer is 7FF8000000000000. Where the estimate is good, no float is made on the way, which
// would take longer.
pub fn root_of_bits(bits: u64) -> u64
    ensures pattern { result ≡ to_bits binary64 (root_of (of_bits binary64 bits)) }
    ensures value { of_bits binary64 result ≡ root_of (of_bits binary64 bits) }
{
    match normal::estimated(bits) {
        Some(r) => r,
        None => patterns::bits_of(without_estimate(patterns::float_of(bits))),
    }
}

// The square root of x.
pub fn root(x: f64) -> f64
    ensures { result ≡ root_of x }
{
    if x.is_nan() {
        return x;
    }
    patterns::float_of(root_of_bits(x.to_bits()))
}
