// What breaks the rules of a text, but for names: the least token for each rule.
#![tactic(auto)]

pub mod calls;
pub mod counts;
pub mod depth;
pub mod ends;
pub mod mains;
pub mod pairs;
