// The document sets that stand on data: a list of ids, words of bits, and all documents of a segment.
#![tactic(auto)]

pub mod all_scorer;
pub mod bitset;
#[cfg(test)]
mod tests;
pub mod vec_docset;
