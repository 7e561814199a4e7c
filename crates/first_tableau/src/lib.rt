// The tableau with which the search for a first corner begins, put into words.
#![tactic(auto)]

pub mod fill;
mod numbers;
#[cfg(test)]
mod tests;
