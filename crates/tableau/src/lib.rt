// Layer 3: bases, tableaus, corners and exchanges.
#![tactic(auto)]

pub mod theorems;
