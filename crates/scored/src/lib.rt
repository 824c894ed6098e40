// Scorers that change the scores of the set below them, and nothing else of it.
#![tactic(auto)]

pub mod boost_scorer;
pub mod reqopt_scorer;
