// Pairs shown reversed: what is looked at in each recording that is written, beside what the second
// analyser says.
ghost use Rattle.std.specs.Prelude.{◌≤◌};

use crate::call::{Call, WAYS, answer, needed, parts_of};
use crate::reading::{counts_of, reads_as};
use crate::told::{Answer, Refused, Told};
use crate::tries::{try_way, try_ways};
use rows::bytes::{at, part_of};
use rows::records::{Name, name_events};
use rows::tally::{Met, Trial};
use second::{Fault, Parts, Relation};

// ---- a recording that was written

// The names of a file's events.
pub(crate) fn names_of(records: &[u8]) -> [Name; 1024] {
    let mut names = [Name::default(); 1024];
    name_events(records, &mut names);
    names
}

// The first event that has a name.
fn event_of(names: &[Name], name: Name) -> Option<usize> {
    names.iter().position(|other| *other == name)
}

// Each record stands in the other file too, at its position in its task.
fn is_rearranged(records: &[u8], names: &[Name], shown: &[u8], shown_names: &[Name]) -> bool {
    for (name, record) in names.iter().zip(records.chunks_exact(4)) {
        let Some(e) = event_of(shown_names, *name) else {
            return false;
        };
        if part_of(shown, e.wrapping_mul(4), e.wrapping_mul(4).wrapping_add(4)) != record {
            return false;
        }
    }
    true
}

// The recording has the file's n records in another order, each task's own kept, and event x of the file
// earlier than y.
fn is_reversed(records: &[u8], shown: &[u8], n: usize, x: usize, y: usize) -> bool {
    let all = names_of(records);
    let all_shown = names_of(shown);
    let names = part_of(&all, 0, n);
    let shown_names = part_of(&all_shown, 0, n);
    let earlier = match (
        event_of(shown_names, at(names, x)),
        event_of(shown_names, at(names, y)),
    ) {
        (Some(first), Some(then)) => first < then,
        _ => false,
    };
    earlier && is_rearranged(records, names, shown, shown_names)
}

// Reading accepts the recording, with start 0 and the counts, edition, start bytes and post bytes of
// the file; analysing does; and it shows event x earlier than y.
fn shows(file: &[u8], shown: &[u8], x: usize, y: usize) -> bool {
    let mut list = [0u16; 24576];
    let r = second::trailer(file).unwrap_or_default();
    let held = parts_of(file);
    let records = recording::records(shown);
    let parts = Parts { records, ..held };
    let analyse = Call::Analyse {
        file: shown,
        budget: 1,
    };
    reads_as(shown, parts, counts_of(r))
        && records.len() == held.records.len()
        && answer(analyse, &mut list, &mut [0; 1]).is_ok()
        && is_reversed(held.records, records, r.events as usize, x, y)
}

// What is looked at after a pair was asked to be shown reversed, and this was written.
pub(crate) fn try_shown(
    trial: &mut Trial,
    file: &[u8],
    chosen: usize,
    other: usize,
    told: Told,
    shown: &[u8],
)
    ensures { trial.old.tally.wrong ≤ trial.new.tally.wrong }
{
    match told {
        Ok(_) => {
            trial.count(shows(file, shown, chosen, other), file);
            trial.meet(Met::Written, 1);
        }
        Err(Some(Fault::Unsure)) => trial.meet(Met::Unsure, 1),
        Err(_) => {}
    }
}

// ---- tries

// The library's question says that a pair is sure.
fn is_sure(file: &[u8], x: usize, y: usize) -> bool {
    let ask = Call::Ask {
        file,
        a: x,
        b: y,
        budget: 0,
    };
    answer(ask, &mut [0; 1], &mut [0; 1]) == Ok(Answer::Related(Relation::Sure))
}

// The first event chosen to be earlier, and the other.
fn both_ways(file: &[u8], x: usize, y: usize) -> (Call<'_>, Call<'_>) {
    let there = Call::Reversed {
        file,
        chosen: x,
        other: y,
    };
    let back = Call::Reversed {
        file,
        chosen: y,
        other: x,
    };
    (there, back)
}

// Why the library writes no recording, with enough memory lent.
fn refusal_of(call: Call) -> Option<Refused> {
    answer(call, &mut [0; 1], &mut [0; 4200]).err()
}

// Both events as the chosen one, with the sizes that are needed and with more. Whichever event is
// chosen, the library writes a recording or refuses alike, and writes exactly of a sure pair.
pub fn try_pair(trial: &mut Trial, file: &[u8], x: usize, y: usize)
    ensures { trial.old.tally.wrong ≤ trial.new.tally.wrong }
{
    let (there, back) = both_ways(file, x, y);
    let need = needed(there);
    try_way(trial, there, need, 0);
    try_way(trial, back, need, 1);
    let refusal = refusal_of(there);
    let alike = refusal == refusal_of(back)
        && refusal != Some(None)
        && refusal.is_none() == is_sure(file, x, y);
    trial.count(alike, file);
}

// Both events as the chosen one, with each of the sizes.
pub fn try_sizes(trial: &mut Trial, file: &[u8], x: usize, y: usize)
    ensures { trial.old.tally.wrong ≤ trial.new.tally.wrong }
{
    let (there, back) = both_ways(file, x, y);
    try_ways(trial, there, WAYS);
    try_ways(trial, back, WAYS);
}
