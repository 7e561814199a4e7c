// Vectors of whole numbers: dot products, the lexicographic order, common divisors.
#![tactic(auto)]

pub mod bounds;
pub mod divisors;
pub mod order;
#[cfg(test)]
mod tests;
pub mod vectors;
