// A host's view of a run: what it reads of the answer areas by the functions of export, and demand 3 in its terms. No function.
#![tactic(auto)]
