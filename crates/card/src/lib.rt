// The card that a teacher writes for a placement box: its text, and what may be wrong with it.
#![tactic(auto)]

pub mod card;
pub mod fault;
pub mod statement;
#[cfg(test)]
mod tests;
pub mod text;
