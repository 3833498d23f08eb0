// No code: IEEE 754's rule for the root, the rule for its digits, and examples of both. The rules stand in specs/, and proofs/ has their theorems.

#![tactic(auto)]
