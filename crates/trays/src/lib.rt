// What a call lays on its caller's tray, from the words of a tableau.
// Places are numbers that count from 0. That one lies below a count relates two values, which no type of one of them can say, so it is a clause.
#![tactic(auto)]

pub mod command;
pub mod direction;
#[cfg(test)]
mod tests;
pub mod tray;
pub mod weights;
