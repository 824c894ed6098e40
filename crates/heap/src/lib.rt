// A heap in a slice, a list of the best, and the orders of what stands in them.
#![tactic(auto)]

pub mod best_list;
pub mod heap;
pub mod hit;
pub mod order;
