// No code: what is claimed of the definition stands in specs/, and its proofs in proofs/.
#![tactic(auto)]
