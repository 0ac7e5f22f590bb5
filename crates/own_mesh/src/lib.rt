// A mesh of an accepted table is taken by area, box and STL: theorems alone, in proofs/.
#![tactic(auto)]
