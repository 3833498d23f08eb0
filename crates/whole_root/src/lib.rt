// The root of a whole number of 105 or 106 binary digits, rounded to a whole number of 53: by a digit loop, which counts its digits, and by way of the
// reciprocal of the root.

#![tactic(auto)]

pub mod digits;
pub mod reciprocal;

ghost use Rattle.std.specs.Prelude.{◌^◌, ◌≤◌, ◌<◌};

// The first 53 or 54 digits of a number of 105 or 106: the number is m * 2 ^ 52.
#[derive(Clone, Copy)]
pub struct Radicand {
    pub m: u64,
    pub ghost digits: { (2 ^ 52 ≤ m) × (m < 2 ^ 54) },
}
