// The documents that at least so many of several sets list.
#![tactic(auto)]

mod chains;
pub mod disjunction;
mod queue;
