// What the rules of a text rest on: its functions, main among them, how its names are spelled, and the least token that breaks a rule.
#![tactic(auto)]

pub mod broken;
pub mod heads;
pub mod mains;
pub mod spelling;
