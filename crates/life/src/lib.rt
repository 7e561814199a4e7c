// Whole lives of a map, and the statement over them.
#![tactic(auto)]

pub mod entry;
pub mod live;
pub mod order;
pub mod shelf;
