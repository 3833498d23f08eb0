// The bytes of an arc's five slots, each in its own part of the reply.

ghost use Rattle.std.specs.Prelude.{◌≡◌, length};
ghost use Rattle.answers.specs.Bytes.{walked_bytes, slot_bytes, slots_bytes};

use super::answer::{Answer, Slot, Slots};
use words::output;

// Kind, steps, and two floats.
fn put_walked(out: &mut [u8], kind: u8, steps: u8, lon: f64, lat: f64)
    requires { length out.old ≡ 18 }
    ensures { out.new ≡ walked_bytes kind steps lon lat }
{
    output::put(&mut out[0..2], [kind, steps]);
    output::put_float(&mut out[2..10], lon);
    output::put_float(&mut out[10..18], lat);
}

#[tactic(auto, unfolding(crate::specs::Bytes::slot_bytes, crate::specs::Answers::numbers_of, crate::specs::Answers::kind_alone))]
fn put_slot(slot: Slot, out: &mut [u8])
    requires { length out.old ≡ 18 }
    ensures { out.new ≡ slot_bytes slot }
{
    let answer = slot.answer;
    let steps = slot.steps;
    // Matched in this module, as document 01 binds. A slot of an arc is never `Height`, which has the bytes of `numbers_of` all the same.
    match answer {
        Answer::NoPiece => put_walked(out, 0, steps, 0.0, 0.0),
        Answer::NoWalk => put_walked(out, 1, steps, 0.0, 0.0),
        Answer::Rejected => put_walked(out, 2, steps, 0.0, 0.0),
        Answer::Found { lon, lat } => put_walked(out, 3, steps, lon, lat),
        Answer::Height { z } => put_walked(out, 3, steps, z, 0.0),
        Answer::NotBetween => put_walked(out, 4, steps, 0.0, 0.0),
        Answer::NoRoot => put_walked(out, 5, steps, 0.0, 0.0),
        Answer::FoundByHalving { lon, lat } => put_walked(out, 6, steps, lon, lat),
        Answer::NoneByHalving => put_walked(out, 7, steps, 0.0, 0.0),
    }
}

pub fn put_slots(s: Slots, out: &mut [u8])
    requires { length out.old ≡ 90 }
    ensures { out.new ≡ slots_bytes s }
{
    let south = s.south;
    let north = s.north;
    put_slot(south.first, &mut out[0..18]);
    put_slot(south.second, &mut out[18..36]);
    put_slot(s.equator, &mut out[36..54]);
    put_slot(north.first, &mut out[54..72]);
    put_slot(north.second, &mut out[72..90]);
}
