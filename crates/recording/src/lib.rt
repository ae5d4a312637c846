// Reading and writing recording files.
#![tactic(auto)]

pub mod reading; // reading.rt: a file's trailer or refusal, and its parts
pub mod writing; // writing.rt: a file from record bytes, counts, start bytes and post bytes

pub use reading::{posts, preamble, read, records, starts};
pub use writing::write;
