// The trial by drawing: the library and the second analyser compared in everything on recordings from
// fixed seeds, in the groups that the rows of the input describe. What is printed is as in the trial by
// hand.
#![tactic(auto)]

mod groups;
mod jobs;
mod looks;
mod routines;

use input::read_full;
use rows::bytes::part_of;
use rows::lines::try_rows;
use rows::tally::Trial;
use rows::text::{section, word};
use std::io;

// A row is a group; one of no known kind is told as a difference, and one without a word before its bar is an empty
// group.
fn try_row(trial: &mut Trial, row: &[u8]) {
    match groups::group_in(row) {
        Some(group) => groups::try_group(trial, row, group),
        None if word(section(row, 0), 0).is_empty() => {}
        None => trial.count(false, row),
    }
}

fn main(rt: HostRuntime) -> io::Result<()> {
    let mut text = [0u8; 16384];
    let n = read_full(&mut rt.stdin(), &mut text)?;
    let mut trial = Trial::new(rt.stdout());
    try_rows(&mut trial, part_of(&text, 0, n), &try_row);
    trial.end()
}
