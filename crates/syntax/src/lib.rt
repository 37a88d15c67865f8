// Tokens, refusals, and the table that holds a syntax tree.
#![tactic(auto)]

pub mod node;
pub mod refusal;
pub mod source;
pub mod token;
