// The numbers of a plant, taken from its questions and kept.
#![tactic(auto)]

mod numbers;
pub mod table;
mod taken;
#[cfg(test)]
mod tests;
