// The digit loop: the square root of a whole number, with what is left, by Zimmermann's division step, from n digits of a root to as many again.

ghost use Rattle.std.specs.Prelude.{◌≡◌, ◌+◌, ◌*◌, ◌^◌, ◌≤◌, ◌<◌};
ghost use Rattle.whole_root.specs.Roots.{WholeRoot, IsNearest, Fewest};
ghost use Rattle.whole_root.specs.Digits.{Estimate, Digits, Longer, remains_of};

use super::Radicand;

// A whole root and its remainder: root * root + rem is the number, and rem is at most 2 * root.
#[derive(Clone, Copy)]
pub struct RootRem {
    pub root: u64,
    pub rem: u64,
}

// A rounded root of 53 digits, as a T, and the digits told of it: the fewest that, with zeros after them, are the exact root, or 53 where none are.
#[derive(Clone, Copy)]
pub struct Counted<T> {
    pub root: T,
    pub digits: u64,
}

// A whole root that is right or at most two too small, by a chord of the root below 8192 and another from there on.
fn estimate(x: u64) -> u64
    requires { (4096 ≤ x) × (x < 16384) }
    ensures { Estimate x result }
{
    if x < 8192 { 38 + x / 160 } else { 54 + x / 224 }
}

// The root of a number of 13 or 14 digits.
fn leading(x: u64) -> RootRem
    requires { (4096 ≤ x) × (x < 16384) }
    ensures { WholeRoot x result.root result.rem }
{
    let t = estimate(x);
    let one = ((t + 1) * (t + 1) <= x) as u64;
    let two = ((t + 2) * (t + 2) <= x) as u64;
    let root = t + one + two;
    RootRem {
        root,
        rem: x - root * root,
    }
}

// The root of a number with two more digits, h and l, in the base b: the root gets one more, by a division.
fn longer(of: RootRem, b: u64, h: u64, l: u64) -> RootRem
    requires { Digits of.root of.rem b h l }
    ensures { Longer of.root of.rem b h l result.root result.rem }
{
    let q = of.root;
    let n = of.rem * b + h;
    let p = n / (2 * q);
    let u = n % (2 * q);
    let s = q * b + p;
    let v = u * b + l;
    let f = (v < p * p) as u64;
    let z = s - f;
    RootRem {
        root: z,
        rem: v + (2 * z + 1) * f - p * p,
    }
}

// How many digits the next turn adds to a root of n digits: as many again, up to 53 in all.
fn gain(n: u64) -> u64
    requires { (0 < n) × (n < 53) }
    ensures { (0 < result) × (result ≤ n) × (n + result ≤ 53) }
{
    n.min(53 - n)
}

// Whether something remains, a remainder r or a nonzero digit of d, where those stand that are still to be brought down.
fn remains(r: u64, d: u64) -> bool
    ensures { result ≡ remains_of r d }
{
    (r != 0) | (d != 0)
}

// The root of m * 2 ^ 52, of 53 digits. At the top of d stand the digits of m that are still to be brought down. The loop leaves as soon as nothing
// remains: the other digits of the root are zeros.
fn sqrt_rem(of: Radicand) -> RootRem
    ensures { WholeRoot (of.m * 2 ^ 52) result.root result.rem }
{
    let mut s = leading(of.m / 0x100_0000_0000);
    let mut d = of.m << 24;
    let mut n: u64 = 7;
    while (n < 53) & remains(s.rem, d) {
        let k = gain(n);
        let h = d >> (64 - k);
        let e = d << k;
        let l = e >> (64 - k);
        s = longer(s, 1 << k, h, l);
        d = e << k;
        n += k;
    }
    RootRem {
        root: s.root << (53 - n),
        rem: s.rem,
    }
}

// The whole number nearest to the root of m * 2 ^ 52, with the digits told.
pub fn counted_root(of: Radicand) -> Counted<u64>
    ensures { (IsNearest (of.m * 2 ^ 52) result.root) × (Fewest (of.m * 2 ^ 52) result.digits) }
{
    let s = sqrt_rem(of);
    let q = s.root;
    if s.rem == 0 {
        let zeros = q.trailing_zeros() as u64;
        return Counted {
            root: q,
            digits: 53 - zeros,
        };
    }
    Counted {
        root: q + ((q < s.rem) as u64),
        digits: 53,
    }
}
