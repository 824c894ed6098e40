// The sets of a bank that have not ended, and what their lists come to together.
#![tactic(auto)]

pub mod live;
