// What the calls of a map do with its working tableau: an array that the map lends, since the library has no heap, which begins with
// the words of a tableau.
// Places are numbers that count from 0. That one lies below a count relates two values, which no type of one of them can say, so it is a clause.
#![tactic(auto)]

pub mod crossing;
pub mod solving;
pub mod starting;
