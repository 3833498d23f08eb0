// Vectors and points on the sphere: the parts of the source's coo3d.rs that the finder rests on.

#![tactic(auto)]

pub mod lonlat;
pub mod point;
mod quarter;
pub mod regions;
pub mod vect3;
