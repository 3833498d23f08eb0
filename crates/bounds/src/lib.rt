// No code: what the constants stand for, what the angle functions never leave, and the laws of rounding by which it is shown.

#![tactic(auto)]
