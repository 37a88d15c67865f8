// Scopes: the declarations that can be seen, and the lookup of a name.
#![tactic(auto)]

pub mod lookup;
pub mod scope;
