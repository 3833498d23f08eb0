// What the height that a walk ends at is taken through.

ghost use Rattle.std.specs.Prelude.{◌≡◌};
ghost use Rattle.plans.specs.Endings.{accepted_eqr, from_end_to_end, accepted_npc, second_try, eqr_arc, pc_arc, eqr_cone, pc_cone, answer_at};

use angles::float;
use answers::answer::Answer;
use coo3d::point::Coo3D;
use coo3d::vect3::Vect3;
use crossing::great_arc::GreatArc;
use crossing::parallel;
use newton::halving::Heights;
use newton::region;

// A piece of an arc in a cap: its ends, and their heights once it is moved to the first quarter and, where it is in the south, negated.
#[derive(Clone, Copy)]
pub struct CapArc {
    pub p1: Vect3,
    pub p2: Vect3,
    pub south: bool,
    pub z1: f64,
    pub z2: f64,
}

// An enum, and no closure, as a plan is a value: what two allowances have to do with it is said of the same plan.
#[derive(Clone, Copy)]
pub enum Ending {
    EqrArc(GreatArc),
    PcArc(CapArc),
    EqrCone,
    PcCone { south: bool },
}

#[tactic(auto, unfolding(crate::specs::Endings::accepted_eqr))]
fn accepted_eqr(z: f64) -> bool
    ensures { result ≡ accepted_eqr z }
{
    float::abs(z) < Coo3D::TRANSITION_Z
}

#[tactic(auto, unfolding(crate::specs::Endings::from_end_to_end))]
fn from_end_to_end(z1: f64, z: f64, z2: f64) -> bool
    ensures { result ≡ from_end_to_end z1 z z2 }
{
    ((z1 <= z2) & (z1 <= z) & (z <= z2)) | ((z2 < z1) & (z2 <= z) & (z <= z1))
}

#[tactic(auto, unfolding(crate::specs::Endings::accepted_npc))]
fn accepted_npc(z: f64) -> bool
    ensures { result ≡ accepted_npc z }
{
    float::is_finite(z) & (z > Coo3D::TRANSITION_Z)
}

// Document 02, ask 7, for a height that is not accepted.
#[tactic(auto, unfolding(crate::specs::Endings::second_try))]
fn second_try(arc: GreatArc) -> Answer
    ensures { result ≡ second_try arc }
{
    let slope = region::slope_in_eqr(arc.normal.z);
    let heights = Heights {
        z1: arc.p1.z,
        z2: arc.p2.z,
    };
    let z = heights.last_middle(slope);
    Answer::from(arc.crossing(z)).on_second_try()
}

#[tactic(auto, unfolding(crate::specs::Endings::eqr_arc))]
fn eqr_arc(arc: GreatArc, z: f64) -> Answer
    ensures { result ≡ eqr_arc arc z }
{
    if accepted_eqr(z) & from_end_to_end(arc.p1.z, z, arc.p2.z) {
        Answer::from(arc.crossing(z))
    } else {
        second_try(arc)
    }
}

#[tactic(auto, unfolding(crate::specs::Endings::pc_arc))]
fn pc_arc(arc: CapArc, z: f64) -> Answer
    ensures { result ≡ pc_arc arc z }
{
    if accepted_npc(z) & parallel::strictly_between(arc.z1, z, arc.z2) {
        let height = region::mirrored(arc.south, z);
        Answer::from(parallel::intersect_parallel(arc.p1, arc.p2, height))
    } else {
        Answer::Rejected
    }
}

#[tactic(auto, unfolding(crate::specs::Endings::eqr_cone))]
fn eqr_cone(z: f64) -> Answer
    ensures { result ≡ eqr_cone z }
{
    if accepted_eqr(z) {
        Answer::Height { z }
    } else {
        Answer::Rejected
    }
}

#[tactic(auto, unfolding(crate::specs::Endings::pc_cone))]
fn pc_cone(south: bool, z: f64) -> Answer
    ensures { result ≡ pc_cone south z }
{
    if accepted_npc(z) {
        Answer::Height {
            z: region::mirrored(south, z),
        }
    } else {
        Answer::Rejected
    }
}

impl Ending {
    #[tactic(auto, unfolding(crate::specs::Endings::answer_at))]
    pub fn answer(self, z: f64) -> Answer
        ensures { result ≡ answer_at self z }
    {
        match self {
            Ending::EqrArc(arc) => eqr_arc(arc, z),
            Ending::PcArc(arc) => pc_arc(arc, z),
            Ending::EqrCone => eqr_cone(z),
            Ending::PcCone { south } => pc_cone(south, z),
        }
    }
}
