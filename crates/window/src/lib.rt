// A window of 4096 document ids in a row, with a tally for each id that was put in: what a union gathers before it hands it out.
#![tactic(auto)]

#[cfg(test)]
mod tests;
pub mod window;
mod word;
