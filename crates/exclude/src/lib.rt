// A document set without the documents of other sets.
#![tactic(auto)]

pub mod exclude;
