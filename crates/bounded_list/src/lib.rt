// A bounded list over a caller's slice.
#![tactic(auto)]

mod list;
#[cfg(test)]
mod tests;

pub use list::List;
