// Where an arc of a great circle crosses a parallel: the source's intersect_parallel.

#![tactic(auto)]

pub mod great_arc;
pub mod parallel;
