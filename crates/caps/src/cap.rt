// The special points of a piece of an arc in a polar cap: one in a single quarter, or one in each of the first and the last.

ghost use Rattle.std.specs.Prelude.{◌≡◌};
ghost use Rattle.caps.specs.Caps.{intersect_point_pc, quarter_end, odd_quarter, end_of_quarter, start_of_quarter, piece_to_end, piece_to_larger_end, piece_from_start, plan_across_zero, plan_within_turn, ordered_plan_in_pc, arc_plan_in_pc};
ghost use Rattle.plans.specs.Plans.{cap_slots_at};

use super::end::End;
use super::same_quarter;
use angles::PI;
use answers::answer::Slot;
use coo3d::point::Coo3D;
use coo3d::regions::Cap;
use coo3d::vect3;
use coo3d::vect3::Vect3;
use newton::slope;
use plans::plan;
use plans::plan::{Plan, Settings};

// The plane of an arc in a cap: its normal, and a height of the arc, for its sign.
#[derive(Clone, Copy)]
struct Plane {
    normal: Vect3,
    z: f64,
}

// The normal of the plane at which an odd or an even quarter ends, and one of the other kind starts.
#[tactic(auto, unfolding(crate::specs::Caps::quarter_end))]
fn quarter_end(odd: bool) -> Vect3
    ensures { result ≡ quarter_end odd }
{
    if odd {
        Vect3 {
            x: 0.0,
            y: 1.0,
            z: 0.0,
        }
    } else {
        Vect3 {
            x: 1.0,
            y: 0.0,
            z: 0.0,
        }
    }
}

#[tactic(auto, unfolding(crate::specs::Caps::odd_quarter))]
fn odd_quarter(quarter: u8) -> bool
    ensures { result ≡ odd_quarter quarter }
{
    quarter % 2 == 1
}

impl Plane {
    // Where the arc meets the plane with the normal n.
    #[tactic(auto, unfolding(crate::specs::Caps::intersect_point_pc))]
    fn intersect_point_pc(self, n: Vect3) -> Coo3D
        ensures { result ≡ intersect_point_pc self.z self.normal n }
    {
        let i = vect3::cross_product(self.normal, n).normalized();
        if slope::have_same_sign(i.z, self.z) {
            Coo3D::from_vec3(i)
        } else {
            Coo3D::from_vec3(i.opposite())
        }
    }

    #[tactic(auto, unfolding(crate::specs::Caps::end_of_quarter))]
    fn end_of_quarter(self, p: Coo3D) -> Coo3D
        ensures { result ≡ end_of_quarter self.z self.normal p }
    {
        self.intersect_point_pc(quarter_end(odd_quarter(p.quarter)))
    }

    #[tactic(auto, unfolding(crate::specs::Caps::start_of_quarter))]
    fn start_of_quarter(self, p: Coo3D) -> Coo3D
        ensures { result ≡ start_of_quarter self.z self.normal p }
    {
        self.intersect_point_pc(quarter_end(!odd_quarter(p.quarter)))
    }

    // The piece from p to the end of its quarter; there is none if p lies at its start.
    #[tactic(auto, unfolding(crate::specs::Caps::piece_to_end))]
    fn piece_to_end(self, p: End, precision: f64) -> Plan
        ensures { result ≡ piece_to_end self.z self.normal p.point precision }
    {
        if p.point.lon_mod > 0.0 {
            let end = End::of_vector(self.end_of_quarter(p.point));
            same_quarter::same_quarter_plan(p, end, precision)
        } else {
            Plan::NoPiece
        }
    }

    // The same for an arc across longitude 0, where the end must have the larger longitude.
    #[tactic(auto, unfolding(crate::specs::Caps::piece_to_larger_end))]
    fn piece_to_larger_end(self, p: End, precision: f64) -> Plan
        ensures { result ≡ piece_to_larger_end self.z self.normal p.point precision }
    {
        if p.point.lon_mod > 0.0 {
            let end = End::of_vector(self.end_of_quarter(p.point));
            if p.point.lon < end.point.lon {
                same_quarter::same_quarter_plan(p, end, precision)
            } else {
                Plan::NoPiece
            }
        } else {
            Plan::NoPiece
        }
    }

    // The piece from the start of p's quarter to p.
    #[tactic(auto, unfolding(crate::specs::Caps::piece_from_start))]
    fn piece_from_start(self, p: End, precision: f64) -> Plan
        ensures { result ≡ piece_from_start self.z self.normal p.point precision }
    {
        let start = End::of_vector(self.start_of_quarter(p.point));
        if start.point.lon < p.point.lon {
            same_quarter::same_quarter_plan(start, p, precision)
        } else {
            Plan::NoPiece
        }
    }
}

// The arc crosses longitude 0: from the start of p1's quarter to p1, and from p2 to the end of its quarter.
#[tactic(auto, unfolding(crate::specs::Caps::plan_across_zero))]
fn plan_across_zero(p1: End, p2: End, precision: f64) -> Cap<Plan>
    ensures { result ≡ plan_across_zero p1.point p2.point precision }
{
    let p2_x_p1 = vect3::cross_product(Vect3::from(p2.point), Vect3::from(p1.point)).normalized();
    let plane = Plane {
        normal: p2_x_p1,
        z: p1.point.z,
    };
    let start = End::of_vector(plane.start_of_quarter(p1.point));
    Cap {
        first: same_quarter::same_quarter_plan(start, p1, precision),
        second: plane.piece_to_larger_end(p2, precision),
    }
}

// The arc does not cross longitude 0: from p1 to the end of its quarter, and from the start of p2's quarter to p2.
#[tactic(auto, unfolding(crate::specs::Caps::plan_within_turn))]
fn plan_within_turn(p1: End, p2: End, precision: f64) -> Cap<Plan>
    ensures { result ≡ plan_within_turn p1.point p2.point precision }
{
    let p1_x_p2 = vect3::cross_product(Vect3::from(p1.point), Vect3::from(p2.point)).normalized();
    let plane = Plane {
        normal: p1_x_p2,
        z: p1.point.z,
    };
    Cap {
        first: plane.piece_to_end(p1, precision),
        second: plane.piece_from_start(p2, precision),
    }
}

// The plan where p1 has not the larger longitude. Here and elsewhere the two ends stay two parameters: they are exchanged, compared and moved one by one.
#[tactic(auto, unfolding(crate::specs::Caps::ordered_plan_in_pc))]
fn ordered_plan_in_pc(p1: End, p2: End, precision: f64) -> Cap<Plan>
    ensures { result ≡ ordered_plan_in_pc p1.point p2.point precision }
{
    if p1.point.quarter == p2.point.quarter {
        Cap {
            first: same_quarter::same_quarter_plan(p1, p2, precision),
            second: Plan::NoPiece,
        }
    } else if p2.point.lon - p1.point.lon > PI {
        plan_across_zero(p1, p2, precision)
    } else {
        plan_within_turn(p1, p2, precision)
    }
}

#[tactic(auto, unfolding(crate::specs::Caps::arc_plan_in_pc))]
fn arc_plan_in_pc(p1: End, p2: End, precision: f64) -> Cap<Plan>
    ensures { result ≡ arc_plan_in_pc p1.point p2.point precision }
{
    if p1.point.lon > p2.point.lon {
        ordered_plan_in_pc(p2, p1, precision)
    } else {
        ordered_plan_in_pc(p1, p2, precision)
    }
}

pub fn arc_special_point_in_pc(p1: End, p2: End, settings: Settings) -> Cap<Slot>
    ensures { result ≡ cap_slots_at settings.allowance (arc_plan_in_pc p1.point p2.point settings.precision) }
{
    plan::cap_slots(
        arc_plan_in_pc(p1, p2, settings.precision),
        settings.allowance,
    )
}
