// The table of commands: the widths of each code, what refuses an operand, the state that commands leave, and a reply with its bytes.

#![tactic(auto)]

pub mod code;
pub mod refusal;
pub mod reply;
pub mod state;
