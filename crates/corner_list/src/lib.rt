// The list of corners: its records, and what is looked up in them.
#![tactic(auto)]

pub mod corner;
pub mod lists;
pub mod outside;
pub mod region;
#[cfg(test)]
mod tests;
