// No code: demand 3 with what follows for each reply, and the examples, claimed of whole job files.

#![tactic(auto)]
