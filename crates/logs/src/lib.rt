// Whole logs of calls on a set: made, answered, and compared.
#![tactic(auto)]

pub mod alike;
pub mod call;
pub mod replay;
