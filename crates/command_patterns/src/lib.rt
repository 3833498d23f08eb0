// Document 02, ask 1: every command pattern for the rig, its rank, and what the program `patterns` prints of them.

#![tactic(auto)]

pub mod input;
pub mod line;
pub mod listing;
pub mod pattern;
