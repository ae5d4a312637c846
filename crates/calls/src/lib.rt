// The library's calls against the second analyser's, for tests: one form of call, of answer and of lent
// memory serves all of them, and each comparison is counted. It is proved safe and to end, with one plain
// fact of each public function: what tries something never loses a difference that was counted.
#![tactic(auto)]

pub mod call;
mod compare;
pub mod lists;
pub mod looks;
pub mod printed;
mod reading;
pub mod shown;
pub mod told;
pub mod tries;
pub mod writing;
