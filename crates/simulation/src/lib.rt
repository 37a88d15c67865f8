#![tactic(auto)]

// The search as a machine makes it, on a program's flat code: the definitions stand in specs/; that it answers what `semantics` says, and takes each choice back, in proofs/. There is no code.
