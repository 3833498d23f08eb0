// What is answered, and its bytes in a reply.

#![tactic(auto)]

pub mod answer;
pub mod arc_bytes;
pub mod cone_bytes;
pub mod parallel_bytes;
