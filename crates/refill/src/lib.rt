// Reading the sets of a bank into a window, and what a union over them means.
#![tactic(auto)]

pub mod refill;
