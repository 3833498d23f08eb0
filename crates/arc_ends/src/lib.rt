// The ends of an arc, as codes 03, 06 and 07 have them among their operands.

#![tactic(auto)]

pub mod ends;
