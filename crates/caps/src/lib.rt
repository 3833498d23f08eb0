// The pieces of an arc in a cap.

#![tactic(auto)]

pub mod cap;
pub mod end;
mod same_quarter;
