// Tests of sets over sets, across the crates. There is nothing here but tests.
#![tactic(auto)]

#[cfg(test)]
mod tests;
