// No code: commands one after the other, their replies and the walks that they begin, and the law for two lists of them.

#![tactic(auto)]
