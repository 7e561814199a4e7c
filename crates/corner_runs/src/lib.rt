// Runs of exchanges on the words of a tableau: the search for a first corner, and the run of a solve.
// That the words hold a corner is a clause and not a fact of a type: an exchange that is out of width leaves no corner in them. That the
// trail is empty is a clause too: it is a list of the caller, which may hold anything.
// Places are numbers that count from 0. That one lies below a count relates two values, which no type of one of them can say, so it is a clause.
#![tactic(auto)]

pub mod exchanges;
pub mod run;
pub mod search;
pub mod stopping;
