// Corners: words that hold the tableau of a corner.
// Places are numbers that count from 0. That one lies below a count relates two values, which no type of one of them can say, so it is a clause.
#![tactic(auto)]

pub mod enter;
pub mod read;
#[cfg(test)]
mod tests;
