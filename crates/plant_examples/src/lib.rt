// The examples of docs/words.md and docs/plants.md, as tests.
#![tactic(auto)]

#[cfg(test)]
mod tests;
#[cfg(test)]
mod words_of_k;
