// Several document sets side by side, reached by their place.
#![tactic(auto)]

pub mod bank;
pub mod vec_bank;
