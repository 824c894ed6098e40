// How the scores of one document are combined into one, and a guess at the size of a union.
#![tactic(auto)]

pub mod score_combiner;
pub mod size_hint;
