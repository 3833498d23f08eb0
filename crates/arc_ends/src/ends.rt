// Longitude and latitude of both ends.

ghost use Rattle.std.specs.Prelude.{◌≡◌, ◌+◌, ◌*◌, ◌≤◌, length};
ghost use Rattle.arc_ends.specs.Ends.{ends_of, ends_finite, ends_in_range, edge_of};

use angles::float;
use coo3d::lonlat;
use two_arcs::edge::Edge;
use words::input;

#[derive(Clone, Copy)]
pub struct Ends {
    pub lon1: f64,
    pub lat1: f64,
    pub lon2: f64,
    pub lat2: f64,
}

// From the k-th float on, flat and in the order of the operands.
#[tactic(auto, unfolding(crate::specs::Ends::ends_of))]
pub fn ends_of(operands: &[u8], k: usize) -> Ends
    requires { (k ≤ 4) × (8 * k + 32 ≤ length operands.now) }
    ensures { result ≡ ends_of operands.now k }
{
    Ends {
        lon1: input::float_at(operands, k),
        lat1: input::float_at(operands, k + 1),
        lon2: input::float_at(operands, k + 2),
        lat2: input::float_at(operands, k + 3),
    }
}

impl Ends {
    #[tactic(auto, unfolding(crate::specs::Ends::ends_finite))]
    pub fn finite(self) -> bool
        ensures { result ≡ ends_finite self }
    {
        float::is_finite(self.lon1)
            & float::is_finite(self.lat1)
            & float::is_finite(self.lon2)
            & float::is_finite(self.lat2)
    }

    #[tactic(auto, unfolding(crate::specs::Ends::ends_in_range))]
    pub fn in_range(self) -> bool
        ensures { result ≡ ends_in_range self }
    {
        lonlat::is_longitude(self.lon1)
            & lonlat::is_latitude(self.lat1)
            & lonlat::is_longitude(self.lon2)
            & lonlat::is_latitude(self.lat2)
    }
}

impl From<Ends> for Edge {
    ghost from_gives = { λ e x. x ≡ edge_of e };

    // The vectors of both ends; no points are made for them.
    #[tactic(auto, using(coo3d::proofs::Heights::vector), unfolding(crate::specs::Ends::edge_of))]
    fn from(e: Ends) -> Edge {
        Edge {
            p1: lonlat::vec3_of(e.lon1, e.lat1),
            p2: lonlat::vec3_of(e.lon2, e.lat2),
        }
    }
}
