// Layer 4: the map. It is opened over a caller's records, started with a plant, and then solves.
#![tactic(auto)]

pub mod map;
mod readings;
