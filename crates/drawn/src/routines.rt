// Two stretches of work compared: all that a small recording has, with such as it lacks, and some from a
// seed.
use crate::groups::draw_budget;
use calls::call::{Call, Lent, WAYS, needed};
use calls::tries::try_way;
use rows::bytes::{at, at_least_one, part_of, product};
use rows::make::Seed;
use rows::records::{Name, name_events};
use rows::tally::Trial;
use second::{Reading, Stretch};

// A recording with its events' names, what its trailer says, and what comparing two of its stretches needs.
#[derive(Clone, Copy)]
struct Recording<'a> {
    file: &'a [u8],
    names: &'a [Name],
    r: Reading,
    need: Lent,
}

// ---- all stretches

// The most events that a task has.
fn most_own(names: &[Name]) -> u16 {
    names.iter().map(|name| name.position).max().unwrap_or(0)
}

// Stretch i of those that have positions below so many.
fn stretch_of(i: u16, ends: u16) -> Stretch {
    let n = at_least_one(ends);
    Stretch {
        task: i / n / n,
        first: i / n % n,
        last: i % n,
    }
}

// How many stretches so many tasks and one more have with positions below so many.
fn count_of(tasks: u16, ends: u16) -> u16 {
    let each = (product(ends, ends) % 65536) as u16;
    (product(each, tasks % 16 + 1) % 65536) as u16
}

// All pairs of the stretches that have positions below so many.
fn try_all(trial: &mut Trial, recording: Recording, ends: u16, budget: u32) {
    let all = count_of(recording.r.tasks, ends);
    let n = at_least_one(all) as usize;
    for i in 0..product(all, all) {
        let call = Call::Compare {
            file: recording.file,
            one: stretch_of((i / n % 65536) as u16, ends),
            other: stretch_of((i % n % 65536) as u16, ends),
            budget,
        };
        try_way(trial, call, recording.need, 0);
    }
}

// ---- some stretches

// How many events a task has: the position of its last one.
fn count_own(recording: Recording, task: u16) -> u16 {
    let records = recording::records(recording.file);
    match second::last_event(records, task).last {
        Some(e) => at(recording.names, e).position,
        None => 0,
    }
}

// In one of eight cases a number of the stretch, whose task has so many events, is put at an edge.
fn draw_edge(seed: &mut Seed, s: Stretch, tasks: u16, own: u16) -> Stretch {
    let Stretch { task, first, last } = s;
    match seed.draw(56) {
        0 => Stretch { task: tasks, ..s },
        1 => Stretch {
            task: task.wrapping_add(256),
            ..s
        },
        2 => Stretch { first: 0, ..s },
        3 => Stretch {
            first: last.wrapping_add(1),
            ..s
        },
        4 => Stretch {
            last: own.wrapping_add(1),
            ..s
        },
        5 => Stretch { last: 65535, ..s },
        6 => Stretch { last: own, ..s },
        _ => Stretch { task, first, last },
    }
}

// A stretch of the task of one of the events, or nearly; one of two is a single event.
fn draw_stretch(seed: &mut Seed, recording: Recording) -> Stretch {
    let r = recording.r;
    let task = at(recording.names, seed.draw(r.events as u32) as usize).task;
    let own = count_own(recording, task);
    let first = seed.draw_from(1, own);
    let more = own.wrapping_add(1).wrapping_sub(first);
    let single = seed.draw(2) == 0;
    let last = seed.draw_from(first, if single { 0 } else { more });
    draw_edge(seed, Stretch { task, first, last }, r.tasks, own)
}

// Two stretches, both ways round: with one of the sizes, and with the size that is needed.
fn try_drawn(trial: &mut Trial, seed: &mut Seed, recording: Recording) {
    let file = recording.file;
    let one = draw_stretch(seed, recording);
    let other = draw_stretch(seed, recording);
    let budget = draw_budget(seed, recording.r.events);
    let there = Call::Compare {
        file,
        one,
        other,
        budget,
    };
    let back = Call::Compare {
        file,
        one: other,
        other: one,
        budget,
    };
    try_way(trial, there, recording.need, seed.draw(WAYS));
    try_way(trial, back, recording.need, 0);
}

// So many pairs of stretches of a recording; or all, of the tasks and of one more, with positions from 0 to
// one past the most.
pub(crate) fn try_stretches(trial: &mut Trial, seed: &mut Seed, file: &[u8], pairs: u32) {
    let mut names = [Name::default(); 1024];
    name_events(recording::records(file), &mut names);
    let r = second::trailer(file).unwrap_or_default();
    let none = Stretch {
        task: 0,
        first: 0,
        last: 0,
    };
    let need = needed(Call::Compare {
        file,
        one: none,
        other: none,
        budget: 0,
    });
    let recording = Recording {
        file,
        names: &names,
        r,
        need,
    };
    for i in 0..pairs {
        try_drawn(trial, seed, recording);
    }
    if pairs == 0 {
        let ends = most_own(part_of(&names, 0, r.events as usize)) % 16 + 2;
        let budget = draw_budget(seed, r.events);
        try_all(trial, recording, ends, budget);
    }
}
