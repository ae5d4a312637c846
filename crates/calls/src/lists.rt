// Lists in task order. An event's name is its task and its position: named so, a list goes by cell, task
// and position, and two recordings of one job may have the same list.
ghost use Rattle.std.specs.Prelude.{◌≤◌};

use crate::call::{Call, list_of, needed};
use crate::shown::names_of;
use crate::tries::try_way;
use crate::writing::try_writing_way;
use rows::bytes::{at, part_of};
use rows::records::{Name, object_of};
use rows::tally::Trial;

// The place of an entry in a list: its cell and its events' names.
#[derive(Clone, Copy, PartialEq, Eq, PartialOrd, Ord)]
struct Place {
    cell: u16,
    lower: Name,
    higher: Name,
}

// Where an entry stands, its events named.
fn place_of(records: &[u8], names: &[Name], entry: &[u16]) -> Place {
    let lower = at(entry, 0);
    let higher = at(entry, 1);
    Place {
        cell: object_of(records, lower),
        lower: at(names, lower as usize),
        higher: at(names, higher as usize),
    }
}

// The library's list of a file; empty where it is refused.
fn listed<'a>(file: &[u8], budget: u32, list: &'a mut [u16]) -> &'a [u16] {
    let found = list_of(Call::Analyse { file, budget }, list);
    let pairs = if found < 8193 { found } else { 0 };
    part_of(list, 0, pairs as usize * 3)
}

// The library's list goes by cell, lower task, its position, higher task, its position.
fn in_task_order(file: &[u8], budget: u32) -> bool {
    let mut list = [0u16; 24576];
    let records = recording::records(file);
    let names = names_of(records);
    let mut last = None;
    for entry in listed(file, budget, &mut list).chunks_exact(3) {
        let place = Some(place_of(records, &names, entry));
        if place <= last || place.map_or(true, |p| p.higher.task <= p.lower.task) {
            return false;
        }
        last = place;
    }
    true
}

// One size for analysing and one for writing, and the order of the list.
pub fn try_one(trial: &mut Trial, file: &[u8], budget: u32, way: u32)
    ensures { trial.old.tally.wrong ≤ trial.new.tally.wrong }
{
    let call = Call::Analyse { file, budget };
    try_way(trial, call, needed(call), way % 6);
    try_writing_way(trial, file, way);
    trial.count(in_task_order(file, budget), file);
}

// The lists of two recordings are the same once their events are named.
fn same_named(one: &[u8], other: &[u8]) -> bool {
    let mut a = [0u16; 24576];
    let mut b = [0u16; 24576];
    let a = listed(one, 1, &mut a);
    let b = listed(other, 1, &mut b);
    let records = recording::records(one);
    let other_records = recording::records(other);
    let names = names_of(records);
    let other_names = names_of(other_records);
    a.len() == b.len()
        && a.chunks_exact(3).zip(b.chunks_exact(3)).all(|(x, y)| {
            place_of(records, &names, x) == place_of(other_records, &other_names, y)
                && at(x, 2) == at(y, 2)
        })
}

// A recording is accepted, and has another one's list.
pub fn try_same_list(trial: &mut Trial, one: &[u8], other: &[u8])
    ensures { trial.old.tally.wrong ≤ trial.new.tally.wrong }
{
    trial.count(second::read(other).is_ok() && same_named(one, other), other);
}
