// The working tableau: the tableau of a basis in words.
// Places are numbers that count from 0. That one lies below a count relates two values, which no type of one of them can say, so it is a clause.
#![tactic(auto)]

pub mod artificial;
pub mod columns;
pub mod exchange;
pub mod leaving;
pub mod reading;
pub mod size;
pub mod slack;
#[cfg(test)]
mod tests;
pub mod view;
pub mod willing;
