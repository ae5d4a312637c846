// What the trials share before any call is made, for tests: rows of an input, numbers and bytes in lent
// slices, recordings by hand and from a seed, and comparisons counted and printed. It is proved safe and to end,
// with one plain fact of each function.
#![tactic(auto)]

pub mod bytes;
pub mod lines;
pub mod log;
pub mod make;
pub mod records;
pub mod tally;
pub mod text;
