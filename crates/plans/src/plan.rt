// What is settled before any walk: that there is no piece, that no walk begins, or which one does.

ghost use Rattle.std.specs.Prelude.{◌≡◌};
ghost use Rattle.plans.specs.Plans.{slot_at, cap_slots_at};

use super::ending::Ending;
use answers::answer::{Answer, Slot};
use coo3d::regions::Cap;
use newton::walk::Start;

// The precision and the allowance that a file has set.
#[derive(Clone, Copy)]
pub struct Settings {
    pub precision: f64,
    pub allowance: u8,
}

// Kinds 0 and 1 are answers as good as a walk's, so neither is a None or an Err.
#[derive(Clone, Copy)]
pub enum Plan {
    NoPiece,
    NoWalk,
    Begins { start: Start, ending: Ending },
}

impl Plan {
    #[tactic(auto, unfolding(crate::specs::Plans::slot_at))]
    pub fn slot(self, allowance: u8) -> Slot
        ensures { result ≡ slot_at allowance self }
    {
        match self {
            Plan::NoPiece => Slot::without_walk(Answer::NoPiece),
            Plan::NoWalk => Slot::without_walk(Answer::NoWalk),
            Plan::Begins { start, ending } => {
                let w = start.walked(allowance);
                Slot {
                    steps: w.steps,
                    answer: ending.answer(w.z),
                }
            }
        }
    }
}

#[tactic(auto, unfolding(crate::specs::Plans::cap_slots_at))]
pub fn cap_slots(plans: Cap<Plan>, allowance: u8) -> Cap<Slot>
    ensures { result ≡ cap_slots_at allowance plans }
{
    let first = plans.first;
    let second = plans.second;
    Cap {
        first: first.slot(allowance),
        second: second.slot(allowance),
    }
}
