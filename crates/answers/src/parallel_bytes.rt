// The bytes of the answer to a parallel or to two arcs.

ghost use Rattle.std.specs.Prelude.{◌≡◌, length};
ghost use Rattle.answers.specs.Bytes.{point_bytes, crossing_bytes};

use super::answer::Answer;
use words::output;

// Kind, and two floats.
fn put_point(out: &mut [u8], kind: u8, lon: f64, lat: f64)
    requires { length out.old ≡ 17 }
    ensures { out.new ≡ point_bytes kind lon lat }
{
    output::put(&mut out[0..1], [kind]);
    output::put_float(&mut out[1..9], lon);
    output::put_float(&mut out[9..17], lat);
}

#[tactic(auto, unfolding(crate::specs::Bytes::crossing_bytes, crate::specs::Answers::numbers_of, crate::specs::Answers::kind_alone))]
pub fn put_crossing(answer: Answer, out: &mut [u8])
    requires { length out.old ≡ 17 }
    ensures { out.new ≡ crossing_bytes answer }
{
    // Matched in this module, as document 01 binds. A parallel is `Found`, `NotBetween` or `NoRoot`, and so are two arcs; the other cases have the bytes of `numbers_of` all the same.
    match answer {
        Answer::NoPiece => put_point(out, 0, 0.0, 0.0),
        Answer::NoWalk => put_point(out, 1, 0.0, 0.0),
        Answer::Rejected => put_point(out, 2, 0.0, 0.0),
        Answer::Found { lon, lat } => put_point(out, 3, lon, lat),
        Answer::Height { z } => put_point(out, 3, z, 0.0),
        Answer::NotBetween => put_point(out, 4, 0.0, 0.0),
        Answer::NoRoot => put_point(out, 5, 0.0, 0.0),
        Answer::FoundByHalving { lon, lat } => put_point(out, 6, lon, lat),
        Answer::NoneByHalving => put_point(out, 7, 0.0, 0.0),
    }
}
