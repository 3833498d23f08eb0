// Operands out of the bytes of a command.

ghost use Rattle.std.specs.Prelude.{◌≡◌, ◌+◌, ◌*◌, ◌≤◌, ◌<◌, length};
ghost use Rattle.words.specs.Words.{word_at, float_at};

use root::patterns;

// The k-th operand of eight bytes, as a number.
fn word_at(operands: &[u8], k: usize) -> u64
    requires { (k < 8) × (8 * k + 8 ≤ length operands.now) }
    ensures { result ≡ word_at operands.now k }
{
    let word = operands[8 * k..].first_chunk::<8>().unwrap();
    u64::from_le_bytes(*word)
}

// The same as a float, a NaN too.
#[tactic(auto, unfolding(crate::specs::Words::float_at))]
pub fn float_at(operands: &[u8], k: usize) -> f64
    requires { (k < 8) × (8 * k + 8 ≤ length operands.now) }
    ensures { result ≡ float_at operands.now k }
{
    patterns::float_of(word_at(operands, k))
}
