// Layer 1: the words of a plant, and the refusals of the whole project.
#![tactic(auto)]

pub mod bounds;
pub mod counts;
pub mod head;
pub mod kind;
pub mod laws;
pub mod part;
pub mod payload;
pub mod reader;
mod reads;
pub mod refusal;
mod state;
mod steps;
#[cfg(test)]
mod tests;
