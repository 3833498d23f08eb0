// The special points of arcs and cones: the source's special_points_finder.rs, of which the rest stands in plans, caps and splits.
//
// What comes before a walk is a plan, which no allowance enters; a plan run with an allowance is a slot.

#![tactic(auto)]

pub mod arc;
mod cone;
pub mod cone_in_eqr;
pub mod cone_in_pc;
mod equator;
