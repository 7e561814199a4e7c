// The rows of a matrix that lies flat in one slice, rewritten in place in an exchange of an exact simplex tableau.
#![tactic(auto)]

pub mod exchange;
pub mod guard;
pub mod matrix;
pub mod numbers;
pub mod pivot;
pub mod row;
pub mod scale;
#[cfg(test)]
mod tests;

// A number that the exchange would write is out of width.
#[derive(Clone, Copy, PartialEq, Eq, Debug)]
pub struct OutOfWidth;
