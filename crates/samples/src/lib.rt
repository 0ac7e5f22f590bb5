// Document 01's cases marked P, computed on the definitions: one statement over one list, in proofs/.
#![tactic(auto)]
