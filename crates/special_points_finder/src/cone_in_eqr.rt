// The special point of a cone's rim in the equatorial region: a height.

ghost use Rattle.std.specs.Prelude.{◌≡◌};
ghost use Rattle.special_points_finder.specs.Cones.{cone_plan_in_eqr};
ghost use Rattle.plans.specs.Plans.{slot_at};

use super::cone;
use answers::answer::Slot;
use newton::slope::{EqrSlope, Slope};
use newton::walk::Start;
use newton::{region, walk};
use plans::ending::Ending;
use plans::plan::{Plan, Settings};

// z is the height that a walk begins at, z0 that of the centre, the radius Euclidean.
#[derive(Clone, Copy)]
pub struct ConeInEqr {
    pub z: f64,
    pub z0: f64,
    pub radius: f64,
    pub north: bool,
}

impl ConeInEqr {
    #[tactic(auto, unfolding(crate::specs::Cones::cone_plan_in_eqr))]
    fn plan(self, precision: f64) -> Plan
        ensures { result ≡ cone_plan_in_eqr self.z self.z0 self.radius self.north precision }
    {
        Plan::Begins {
            start: Start {
                slope: Slope::Equatorial(EqrSlope {
                    cone: cone::cone_of_radius(self.z0, self.radius),
                    cte: region::cte_eqr(self.north),
                }),
                limit: walk::limit(precision, self.radius),
                z: self.z,
            },
            ending: Ending::EqrCone,
        }
    }

    // The source's cone_special_point_in_eqr.
    pub fn special_point(self, settings: Settings) -> Slot
        ensures { result ≡ slot_at settings.allowance
            (cone_plan_in_eqr self.z self.z0 self.radius self.north settings.precision) }
    {
        self.plan(settings.precision).slot(settings.allowance)
    }
}
