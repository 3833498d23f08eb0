// An arc of a great circle, with what all its crossings share.

ghost use Rattle.std.specs.Prelude.{◌≡◌};
ghost use Rattle.crossing.specs.GreatArcs.{great_arc, passes_of};

use coo3d::vect3;
use coo3d::vect3::Vect3;

// The ends, their scalar product, and the norm and the direction of their cross product.
#[derive(Clone, Copy)]
pub struct GreatArc {
    pub p1: Vect3,
    pub p2: Vect3,
    pub dot: f64,
    pub norm: f64,
    pub normal: Vect3,
}

impl GreatArc {
    #[tactic(auto, unfolding(crate::specs::GreatArcs::great_arc, coo3d::specs::Vectors::normalized_of))]
    pub fn new(p1: Vect3, p2: Vect3) -> GreatArc
        ensures { result ≡ great_arc p1 p2 }
    {
        let p1_x_p2 = vect3::cross_product(p1, p2);
        let norm = p1_x_p2.norm();
        GreatArc {
            p1,
            p2,
            dot: vect3::dot_product(p1, p2),
            norm,
            normal: p1_x_p2.divided_by(norm),
        }
    }

    // The two scalar product tests: whether v is no farther from either end than the ends are from each other.
    #[tactic(auto, unfolding(crate::specs::GreatArcs::passes_of))]
    pub fn passes(self, v: Vect3) -> bool
        ensures { result ≡ passes_of self v }
    {
        (vect3::dot_product(self.p1, v) >= self.dot) & (vect3::dot_product(self.p2, v) >= self.dot)
    }
}
