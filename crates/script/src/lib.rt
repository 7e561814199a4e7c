// What the program makes of the readings in its input and of the replies of the map: groups, counts and lines.
#![tactic(auto)]

pub mod groups;
pub mod growth;
pub mod line;
#[cfg(test)]
mod tests;
