// The Newton-Raphson method that looks for a special point: slopes of both regions, and the one walk over either; and halving, where a walk has failed.

#![tactic(auto)]

pub mod halving;
pub mod region;
pub mod signs;
pub mod slope;
pub mod walk;
