// A piece of an arc in a cap and within one quarter: the source's arc_special_point_in_pc_same_quarter.

ghost use Rattle.std.specs.Prelude.{◌≡◌};
ghost use Rattle.caps.specs.SameQuarter.{center_of, quarter_piece, starting_choice, piece_plan, same_quarter_plan};

use super::end::End;
use angles::{PI, float};
use coo3d::point::Coo3D;
use coo3d::vect3::Vect3;
use coo3d::{lonlat, vect3};
use crossing::parallel;
use newton::slope::{Cone, NpcSlope, Slope};
use newton::walk::Start;
use newton::{region, slope, walk};
use plans::ending::{CapArc, Ending};
use plans::plan::Plan;

// The height and the longitude of the cone's centre.
#[derive(Clone, Copy)]
struct Center {
    z: f64,
    lon: f64,
}

// The piece moved to the first quarter of the north cap: whether it was in the south, its slope, and the heights of the middle and the ends.
#[derive(Clone, Copy)]
struct QuarterPiece {
    south: bool,
    slope: Slope,
    z: f64,
    z1: f64,
    z2: f64,
}

// Of the normal of the plane through both, or of its opposite where the longitude is above π. A unit vector's opposite is not divided again, so the
// arctangent of the normal's longitude serves its longitude too.
#[tactic(auto, using(coo3d::proofs::Opposites::unit_opposite), unfolding(crate::specs::SameQuarter::center_of))]
fn cone_center(v1: Vect3, v2: Vect3) -> Center
    ensures { result ≡ center_of v1 v2 }
{
    let n = vect3::cross_product(v1, v2).normalized();
    let lon = lonlat::lon_of_opposites(n.x, n.y);
    if lon.own > PI {
        if n.is_unit() {
            Center {
                z: -n.z,
                lon: lon.opposite,
            }
        } else {
            let o = n.opposite();
            Center {
                z: o.z,
                lon: lonlat::lon_of(o.x, o.y),
            }
        }
    } else {
        Center {
            z: n.z,
            lon: lon.own,
        }
    }
}

fn piece(v1: Coo3D, v2: Coo3D) -> QuarterPiece
    ensures { result ≡ quarter_piece v1 v2 }
{
    let center = cone_center(Vect3::from(v1), Vect3::from(v2));
    let north = center.z < 0.0;
    let east = ((v1.lat > v2.lat) ^ (v1.lon > v2.lon)) ^ !north;
    let mean = 0.5 * (v1.z + v2.z);
    let south = mean < 0.0;
    QuarterPiece {
        south,
        slope: Slope::Polar(NpcSlope {
            cone: Cone::new(region::mirrored(south, center.z), 0.0),
            lon: center.lon,
            cte: region::cte_npc(north ^ south),
            direction: region::direction(east),
        }),
        z: region::mirrored(south, mean),
        z1: region::mirrored(south, v1.z),
        z2: region::mirrored(south, v2.z),
    }
}

impl QuarterPiece {
    // One Newton step from the middle; where that leaves the piece, from the second end, and then from the first.
    #[tactic(auto, unfolding(crate::specs::SameQuarter::starting_choice))]
    fn start(self) -> f64
        ensures { result ≡ starting_choice self }
    {
        let s = self.slope;
        let z = self.z - s.ratio(self.z);
        if parallel::strictly_between(self.z1, z, self.z2) {
            return z;
        }
        let z = self.z2 - s.ratio(self.z2);
        if parallel::strictly_between(self.z1, z, self.z2) {
            return z;
        }
        self.z1 - s.ratio(self.z1)
    }

    #[tactic(auto, unfolding(crate::specs::SameQuarter::piece_plan))]
    fn plan(self, p1: Vect3, p2: Vect3, precision: f64) -> Plan
        ensures { result ≡ piece_plan self p1 p2 precision }
    {
        let s = self.slope;
        if slope::have_same_sign(s.slope(self.z1), s.slope(self.z2)) {
            return Plan::NoWalk;
        }
        Plan::Begins {
            start: Start {
                slope: s,
                limit: walk::limit(precision, float::abs(self.z2 - self.z1)),
                z: self.start(),
            },
            ending: Ending::PcArc(CapArc {
                p1,
                p2,
                south: self.south,
                z1: self.z1,
                z2: self.z2,
            }),
        }
    }
}

#[tactic(auto, unfolding(crate::specs::SameQuarter::same_quarter_plan))]
pub fn same_quarter_plan(p1: End, p2: End, precision: f64) -> Plan
    ensures { result ≡ same_quarter_plan p1.point p2.point precision }
{
    if p1.point.lon == p2.point.lon {
        return Plan::NoWalk;
    }
    piece(p1.moved(), p2.moved_last()).plan(Vect3::from(p1.point), Vect3::from(p2.point), precision)
}
