// Numbers and floats in bytes, the lowest byte first, in and out of parts of a slice.

#![tactic(auto)]

pub mod input;
pub mod output;
