// The special point of a piece of an arc in the equatorial region.

ghost use Rattle.std.specs.Prelude.{◌≡◌};
ghost use Rattle.special_points_finder.specs.Equator.{SignsTold, arc_plan_in_eqr};
ghost use Rattle.plans.specs.Plans.{slot_at};

use angles::float;
use answers::answer::Slot;
use coo3d::vect3;
use coo3d::vect3::Vect3;
use crossing::great_arc::GreatArc;
use newton::walk::Start;
use newton::{region, signs, slope, walk};
use plans::ending::Ending;
use plans::plan::{Plan, Settings};

// 1: the slopes at the ends have the same sign; 2: they have not; 0: nothing is said. The ends may come in either order. Put into its caller, so that both vectors
// stay in registers.
#[inline(always)]
pub fn signs_told(p1: Vect3, p2: Vect3) -> u8
    ensures { SignsTold result p1 p2 }
{
    let n = vect3::cross_product(p1, p2);
    signs::signs_by_order(n.squared_norm(), n.z, p1.z, p2.z)
}

// No slope is worked out where the order of floats tells the signs.
fn arc_plan_in_eqr(p1: Vect3, p2: Vect3, precision: f64) -> Plan
    ensures { result ≡ arc_plan_in_eqr p1 p2 precision }
{
    let told = signs_told(p1, p2);
    if told == 1 {
        return Plan::NoWalk;
    }
    let arc = GreatArc::new(p1, p2);
    let s = region::slope_in_eqr(arc.normal.z);
    if (told != 2) && slope::have_same_sign(s.slope(p1.z), s.slope(p2.z)) {
        return Plan::NoWalk;
    }
    Plan::Begins {
        start: Start {
            slope: s,
            limit: walk::limit(precision, float::abs(p2.z - p1.z)),
            z: 0.5 * (p1.z + p2.z),
        },
        ending: Ending::EqrArc(arc),
    }
}

pub fn arc_special_point_in_eqr(p1: Vect3, p2: Vect3, settings: Settings) -> Slot
    ensures { result ≡ slot_at settings.allowance (arc_plan_in_eqr p1 p2 settings.precision) }
{
    arc_plan_in_eqr(p1, p2, settings.precision).slot(settings.allowance)
}
