// The special point of a cone's rim in a cap: a height.

ghost use Rattle.std.specs.Prelude.{◌≡◌};
ghost use Rattle.special_points_finder.specs.Cones.{cone_plan_in_pc};
ghost use Rattle.plans.specs.Plans.{slot_at};

use super::cone;
use answers::answer::Slot;
use newton::slope::{NpcSlope, Slope};
use newton::walk::Start;
use newton::{region, walk};
use plans::ending::Ending;
use plans::plan::{Plan, Settings};

// z, z0 and radius as for the equatorial region; lon is that of the centre, modulo π/2.
#[derive(Clone, Copy)]
pub struct ConeInPc {
    pub z: f64,
    pub lon: f64,
    pub z0: f64,
    pub radius: f64,
    pub east: bool,
    pub north: bool,
}

impl ConeInPc {
    fn plan(self, precision: f64) -> Plan
        ensures { result ≡ cone_plan_in_pc self.z self.lon self.z0 self.radius self.east self.north precision }
    {
        let south = self.z < 0.0;
        Plan::Begins {
            start: Start {
                slope: Slope::Polar(NpcSlope {
                    cone: cone::cone_of_radius(region::mirrored(south, self.z0), self.radius),
                    lon: self.lon,
                    cte: region::cte_npc(self.north ^ south),
                    direction: region::direction(self.east),
                }),
                limit: walk::limit(precision, self.radius),
                z: region::mirrored(south, self.z),
            },
            ending: Ending::PcCone { south },
        }
    }

    // The source's cone_special_point_in_pc. One line, as for the equatorial region: a trait with a law for both would be longer.
    pub fn special_point(self, settings: Settings) -> Slot
        ensures { result ≡ slot_at settings.allowance
            (cone_plan_in_pc self.z self.lon self.z0 self.radius self.east self.north settings.precision) }
    {
        self.plan(settings.precision).slot(settings.allowance)
    }
}
