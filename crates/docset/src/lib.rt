// The promise that every document set keeps, and what all sets share.
#![tactic(auto)]

pub mod alive_bitset;
pub mod docset;
pub mod refusal;
pub mod scorer;
