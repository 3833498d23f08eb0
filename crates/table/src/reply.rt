// What a turn replies, and its bytes.

ghost use Rattle.std.specs.Prelude.{◌≡◌, ◌+◌, Ok, length};
ghost use Rattle.table.specs.Table.{answer_width};
ghost use Rattle.table.specs.Turns.{Fits, answer_bytes, refused_bytes, reply_bytes};

use super::refusal::Refusal;
use answers::answer::{Answer, Slot, Slots};
use answers::{arc_bytes, cone_bytes, parallel_bytes};
use words::output;

#[derive(Clone, Copy)]
pub enum Reply {
    Accepted,
    Slots(Slots),
    Cone(Slot),
    Crossing(Answer),
}

impl Reply {
    fn put_answer(self, out: &mut [u8])
        requires { Fits (Ok self) (length out.old) }
        ensures { out.new ≡ answer_bytes (length out.old) (Ok self) }
    {
        match self {
            Reply::Accepted => {}
            Reply::Slots(slots) => arc_bytes::put_slots(slots, out),
            Reply::Cone(slot) => cone_bytes::put_cone(slot, out),
            Reply::Crossing(answer) => parallel_bytes::put_crossing(answer, out),
        }
    }
}

// The reply of a refused job, of any number.
pub fn put_refused(number: u8, code: u8, out: &mut [u8])
    requires { length out.old ≡ 2 + answer_width code }
    ensures { out.new ≡ refused_bytes code number }
{
    let end = out.len();
    output::put(&mut out[0..2], [code, number]);
    output::fill(&mut out[2..end], 0);
}

// The whole reply, in its own part of the reply buffer.
pub fn put(turn: Result<Reply, Refusal>, code: u8, out: &mut [u8])
    requires { (length out.old ≡ 2 + answer_width code) × Fits turn (answer_width code) }
    ensures { out.new ≡ reply_bytes code turn }
{
    match turn {
        Ok(reply) => {
            let end = out.len();
            output::put(&mut out[0..2], [code, 0]);
            reply.put_answer(&mut out[2..end]);
        }
        Err(refusal) => put_refused(u8::from(refusal), code, out),
    }
}
