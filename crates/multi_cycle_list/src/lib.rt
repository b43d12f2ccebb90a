// `MultiCycleList`: lists of entries by class, as cycles of nodes in lent bytes.
#![tactic(auto)]

mod cycle;
pub mod inner;
pub mod link;
pub mod whole;
