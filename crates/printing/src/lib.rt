// Putting the report's bytes into a lent output.
#![tactic(auto)]

pub mod answer; // answer.rt: the report of an answer
pub mod entries; // entries.rt: a line for each entry
pub mod lines; // lines.rt: the lines
pub mod output; // output.rt: bytes, texts and numbers, one after the other
