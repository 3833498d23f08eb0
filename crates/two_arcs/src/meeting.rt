// The crossing of two arcs.

ghost use Rattle.std.specs.Prelude.{◌≡◌};
ghost use Rattle.two_arcs.specs.TwoArcs.{passes_both, first_that_passes, zero_or_nan, intersect_arcs};

use super::edge::Edge;
use coo3d::vect3;
use coo3d::vect3::Vect3;

// Why there is no crossing: neither candidate passes, or there is no candidate.
#[derive(Clone, Copy, Debug, PartialEq, Eq)]
pub enum NoMeeting {
    Nowhere,
    NoCandidate,
}

#[tactic(auto, unfolding(crate::specs::TwoArcs::passes_both))]
fn passes_both(a: Edge, b: Edge, v: Vect3) -> bool
    ensures { result ≡ passes_both a b v }
{
    a.passes(v) & b.passes(v)
}

// A candidate or its opposite, which is made only where the candidate fails; so this is no twin of an arc's `first_that_passes`, which has both roots.
#[tactic(auto, unfolding(crate::specs::TwoArcs::first_that_passes))]
fn first_that_passes(a: Edge, b: Edge, v: Vect3) -> Option<Vect3>
    ensures { result ≡ first_that_passes a b v }
{
    if passes_both(a, b, v) {
        return Some(v);
    }
    let w = v.opposite();
    if passes_both(a, b, w) { Some(w) } else { None }
}

#[tactic(auto, using(angles::proofs::Floats::nan_by_test), unfolding(crate::specs::TwoArcs::zero_or_nan))]
fn zero_or_nan(norm: f64) -> bool
    ensures { result ≡ zero_or_nan norm }
{
    (norm == 0.0) | norm.is_nan()
}

#[tactic(auto, unfolding(crate::specs::TwoArcs::intersect_arcs, crate::specs::TwoArcs::cross_of_arcs, coo3d::specs::Vectors::normalized_of))]
pub fn intersect_arcs(a: Edge, b: Edge) -> Result<Vect3, NoMeeting>
    ensures { result ≡ intersect_arcs a b }
{
    let cross = vect3::cross_product(a.cross(), b.cross());
    // The candidate is `cross.normalized()`, by the norm that is here already.
    let norm = cross.norm();
    if zero_or_nan(norm) {
        return Err(NoMeeting::NoCandidate);
    }
    first_that_passes(a, b, cross.divided_by(norm)).ok_or(NoMeeting::Nowhere)
}
