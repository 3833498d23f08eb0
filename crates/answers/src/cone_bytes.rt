// The bytes of a cone's answer.

ghost use Rattle.std.specs.Prelude.{◌≡◌, length};
ghost use Rattle.answers.specs.Bytes.{height_bytes, cone_bytes};

use super::answer::{Answer, Slot};
use words::output;

// Kind, steps, and a float.
fn put_height(out: &mut [u8], kind: u8, steps: u8, z: f64)
    requires { length out.old ≡ 10 }
    ensures { out.new ≡ height_bytes kind steps z }
{
    output::put(&mut out[0..2], [kind, steps]);
    output::put_float(&mut out[2..10], z);
}

#[tactic(auto, unfolding(crate::specs::Bytes::cone_bytes, crate::specs::Answers::numbers_of, crate::specs::Answers::kind_alone))]
pub fn put_cone(slot: Slot, out: &mut [u8])
    requires { length out.old ≡ 10 }
    ensures { out.new ≡ cone_bytes slot }
{
    let answer = slot.answer;
    let steps = slot.steps;
    // Matched in this module, as document 01 binds. A cone is `Rejected` or `Height`; the other cases have the bytes of `numbers_of` all the same.
    match answer {
        Answer::NoPiece => put_height(out, 0, steps, 0.0),
        Answer::NoWalk => put_height(out, 1, steps, 0.0),
        Answer::Rejected => put_height(out, 2, steps, 0.0),
        Answer::Found { lon, .. } => put_height(out, 3, steps, lon),
        Answer::Height { z } => put_height(out, 3, steps, z),
        Answer::NotBetween => put_height(out, 4, steps, 0.0),
        Answer::NoRoot => put_height(out, 5, steps, 0.0),
        Answer::FoundByHalving { lon, .. } => put_height(out, 6, steps, lon),
        Answer::NoneByHalving => put_height(out, 7, steps, 0.0),
    }
}
