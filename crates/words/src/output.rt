// Numbers and floats into parts of a reply, each part filled whole.

ghost use Rattle.std.specs.Prelude.{◌≡◌, length, replicate};
ghost use Rattle.words.specs.Words.{bytes, float_bytes};

use root::patterns;

pub fn put<const N: usize>(out: &mut [u8], part: [u8; N])
    requires { length out.old ≡ N }
    ensures { out.new ≡ part.entry }
{
    out.copy_from_slice(&part);
}

#[tactic(auto, using(crate::proofs::Eight::bytes_eight))]
fn put_word(out: &mut [u8], x: u64)
    requires { length out.old ≡ 8 }
    ensures { out.new ≡ bytes 8 x }
{
    out.copy_from_slice(&x.to_le_bytes());
}

#[tactic(auto, unfolding(crate::specs::Words::float_bytes))]
pub fn put_float(out: &mut [u8], x: f64)
    requires { length out.old ≡ 8 }
    ensures { out.new ≡ float_bytes x }
{
    put_word(out, patterns::bits_of(x));
}

pub fn fill(out: &mut [u8], a: u8)
    ensures { out.new ≡ replicate (length out.old) a }
{
    out.fill(a);
}
