// Tests of unions over leaves, boosts and each other. There is nothing here but tests.
#![tactic(auto)]

#[cfg(test)]
mod tests;
