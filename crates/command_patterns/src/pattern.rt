// A pattern, and its rank: its codes are the digits, 1 to 6, of a number to base six, which is one more than the rank. So a code stays a number: a
// rank is worked out of it, and its digit in a line.

ghost use Rattle.std.specs.Prelude.{◌≡◌};
ghost use Rattle.command_patterns.specs.Patterns.{is_code, pattern_or_none, rank_or_none};

use std::marker::Model;

// As many as there are of one up to five commands.
pub const COUNT: u64 = 9330;

// Its codes are those from `first` on, in an array, as there is no heap; zeros stand before them.
#[derive(Clone, Copy)]
pub struct Pattern {
    codes: [u8; 5],
    first: usize,
}

impl Model for Pattern {
    ghost use Rattle.std.specs.Prelude.{◌≡◌, List, ℕ};

    ghost Value = { List ℕ };

    ghost use Rattle.command_patterns.specs.Held.{codes_of, held};

    ghost view = { codes_of };

    ghost invariant = { λ p. held (codes_of p) ≡ p };

    ghost inverse = { held };

    ghost inverse_ok = { λ p h. h };
}

impl Pattern {
    pub fn codes(&self) -> &[u8]
        ensures { result.now ≡ self.now }
    {
        &self.codes[self.first..]
    }
}

// The pattern of a rank; there is none past the last.
pub fn pattern_at(rank: u64) -> Option<Pattern>
    ensures { result ≡ pattern_or_none rank }
{
    if COUNT <= rank {
        return None;
    }
    // The last code comes first. How many there are shows only when none is left, so that the place counts down by itself.
    let mut codes = [0; 5];
    let mut first = 5;
    let mut left = rank + 1;
    while 0 < left {
        left -= 1;
        first -= 1;
        codes[first] = (left % 6 + 1) as u8;
        left /= 6;
    }
    Some(Pattern { codes, first })
}

fn is_code(code: u8) -> bool
    ensures { result ≡ is_code code }
{
    matches!(code, 1..=6)
}

// The rank of a pattern, by its codes; what is none of one up to five commands has none.
pub fn rank(codes: &[u8]) -> Option<u64>
    ensures { result ≡ rank_or_none codes.now }
{
    if 5 < codes.len() {
        return None;
    }
    let mut number = 0;
    for &code in codes {
        if !is_code(code) {
            return None;
        }
        number = 6 * number + u64::from(code);
    }
    // No code at all comes to 0.
    number.checked_sub(1)
}
