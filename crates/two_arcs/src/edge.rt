// An arc of a great circle by its two ends.

ghost use Rattle.std.specs.Prelude.{◌≡◌};
ghost use Rattle.two_arcs.specs.TwoArcs.{cross_of_ends, passes_of};

use coo3d::vect3;
use coo3d::vect3::Vect3;

#[derive(Clone, Copy)]
pub struct Edge {
    pub p1: Vect3,
    pub p2: Vect3,
}

impl Edge {
    #[tactic(auto, unfolding(crate::specs::TwoArcs::cross_of_ends))]
    pub fn cross(self) -> Vect3
        ensures { result ≡ cross_of_ends self }
    {
        vect3::cross_product(self.p1, self.p2)
    }

    // Whether v is no farther from either end than the ends are from each other, and not on the far side of the sphere.
    #[tactic(auto, unfolding(crate::specs::TwoArcs::passes_of))]
    pub fn passes(self, v: Vect3) -> bool
        ensures { result ≡ passes_of self v }
    {
        let dot = vect3::dot_product(self.p1, self.p2);
        let dot1 = vect3::dot_product(v, self.p1);
        let dot2 = vect3::dot_product(v, self.p2);
        (dot1 >= dot) & (dot2 >= dot) & !(dot1 + dot2 < 0.0)
    }
}
