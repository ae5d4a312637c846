// The trial by hand: the library and the second analyser compared in everything on the rows of the input,
// and held to the answers written there: worked recordings, edge files, refusals, two recordings held
// together, pairs shown reversed, looks for last events, stretches compared. Each group prints how many
// rows it has and how many comparisons it made; each row and each file at which the two differ is printed;
// the last line counts the rows.
#![tactic(auto)]

mod edges;
mod looks;
mod ordered;
mod recordings;
mod worked;
mod written;

use input::read_full;
use rows::bytes::part_of;
use rows::lines::try_rows;
use rows::tally::Trial;
use rows::text::{section, word};
use std::io;

// A row, by its kind; one of no known kind is told as a difference.
fn try_row(trial: &mut Trial, row: &[u8]) {
    match word(section(row, 0), 0) {
        b"whole" => worked::try_whole(trial, row),
        b"brief" => worked::try_brief(trial, row),
        b"prints" => worked::try_prints(trial, row),
        b"analyse" | b"ask" | b"reversed" | b"compare" => worked::try_call(trial, row),
        b"write" => written::try_write(trial, row),
        b"lend" => written::try_lent_levels(trial, row),
        b"starts" => written::try_starts(trial, row),
        b"posts" => written::try_posts(trial, row),
        b"shows" => worked::try_shows(trial, row),
        b"both" => worked::try_both(trial, row),
        b"edge" => edges::try_edge(trial, row),
        b"last" => looks::try_last(trial, row),
        b"sevens" => looks::try_sevens(trial, section(row, 0)),
        b"job" => ordered::try_job(trial, section(row, 0)),
        _ => trial.count(false, row),
    }
}

fn main(rt: HostRuntime) -> io::Result<()> {
    let mut text = [0u8; 131072];
    let n = read_full(&mut rt.stdin(), &mut text)?;
    let mut trial = Trial::new(rt.stdout());
    try_rows(&mut trial, part_of(&text, 0, n), &try_row);
    trial.end()
}
