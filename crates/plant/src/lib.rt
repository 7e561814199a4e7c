// Layer 2: what a plant is, and two sorts of plant.
#![tactic(auto)]

pub mod interface;
pub mod laws;
pub mod load;
mod place;
pub mod range;
pub mod range_table;
pub mod ranged;
pub mod ranged_plant;
mod row;
pub mod written;
pub mod written_plant;
