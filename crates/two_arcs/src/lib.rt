// Where two arcs cross (document 02, ask 3). No cross product but the candidate is normalised, so no `GreatArc` is made.

#![tactic(auto)]

pub mod edge;
pub mod meeting;
