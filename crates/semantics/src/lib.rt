#![tactic(auto)]

// What the papers say of programs, their runs, the plan list and the search: the definitions stand in specs/, the theorems on them in proofs/. There is no code.
