// The union of several document sets, by windows.
#![tactic(auto)]

pub mod buffered_union;
