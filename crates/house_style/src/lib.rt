// The house style of slip 7: the definitions stand in specs/, the theorems on them in proofs/. There is no code.
#![tactic(auto)]
