// Recordings from fixed seeds: small and large, valid and damaged. One driver draws the recordings of
// every group, and its kind says what is tried of each.
use crate::{jobs, looks, routines};
use calls::call::{Call, WAYS, needed};
use calls::lists::try_one;
use calls::printed::try_printing;
use calls::shown::try_pair;
use calls::tries::{ENDLESS, try_analysing, try_pairs, try_questions, try_reading, try_way};
use calls::writing::try_writing;
use rows::bytes::{Bytes, at, put};
use rows::make::{Seed, damage, make};
use rows::records::Shape;
use rows::tally::Trial;
use rows::text::{section, value, word};

// What is tried of each recording.
#[derive(Clone, Copy)]
enum Kind {
    Drawn,
    Changed,
    Asked,
    Jobs,
    Altered,
    Pairs,
    Looks,
    Bytes,
    Stretches,
}

impl Kind {
    // The kind that a row names, and whether the recordings are damaged.
    fn named(word: &[u8]) -> Option<(Kind, bool)> {
        let named = match word {
            b"drawn" => (Kind::Drawn, false),
            b"damaged" => (Kind::Drawn, true),
            b"changed" => (Kind::Changed, false),
            b"asked" => (Kind::Asked, false),
            b"jobs" => (Kind::Jobs, false),
            b"altered" => (Kind::Altered, false),
            b"pairs" => (Kind::Pairs, false),
            b"damaged-pairs" => (Kind::Pairs, true),
            b"looks" => (Kind::Looks, false),
            b"bytes" => (Kind::Bytes, false),
            b"stretches" => (Kind::Stretches, false),
            b"damaged-stretches" => (Kind::Stretches, true),
            _ => return None,
        };
        Some(named)
    }
}

// How large the recordings of a group are: at least so many events and fewer than so many more, and
// below so many more than 1 task, 0 semaphores, 0 flags in edition 3, and 0 cells; their edition;
// whether all sizes of lent memory are tried or one of them, and of how many pairs of events or of
// stretches, 0 for all.
#[derive(Clone, Copy)]
pub(crate) struct Group {
    kind: Kind,
    damaged: bool,
    least: u16,
    more: u16,
    tasks: u16,
    semaphores: u16,
    cells: u16,
    edition: u16,
    all: bool,
    pairs: u32,
}

// A shape of the group. Where there is but one number of events, all sizes are as they are given.
fn draw_shape(seed: &mut Seed, g: Group) -> Shape {
    if g.more == 0 {
        return Shape {
            preamble: 5,
            events: g.least,
            tasks: g.tasks,
            semaphores: g.semaphores,
            flags: if g.edition == 3 { 4 } else { 0 },
            cells: g.cells,
            edition: g.edition,
        };
    }
    let preamble = seed.draw_word(9);
    let events = seed.draw_from(g.least, g.more);
    let tasks = seed.draw_from(1, g.tasks);
    let semaphores = seed.draw_word(g.semaphores);
    let flags = if g.edition == 3 {
        seed.draw_word(g.semaphores)
    } else {
        0
    };
    let cells = seed.draw_word(g.cells);
    Shape {
        preamble,
        events,
        tasks,
        semaphores,
        flags,
        cells,
        edition: g.edition,
    }
}

// 0 to 3, enough, or the largest.
pub(crate) fn draw_budget(seed: &mut Seed, events: u16) -> u32 {
    match seed.draw(7) {
        4 => ENDLESS,
        5 | 6 => events as u32 * 1024 + 1,
        few => few,
    }
}

// All that is compared of a recording, or one size of each lent memory.
fn try_made(trial: &mut Trial, seed: &mut Seed, file: &[u8], s: Shape, all: bool) {
    let budget = draw_budget(seed, s.events);
    let way = seed.draw(78);
    try_reading(trial, file);
    if !all {
        return try_one(trial, file, budget, way);
    }
    try_analysing(trial, file, budget);
    try_writing(trial, file);
    try_printing(trial, file);
}

// A byte of a file one more, one less, the least and the largest, and then as it was.
fn try_changed(trial: &mut Trial, file: &mut [u8], i: usize) {
    let value = at(file, i);
    for other in [value.wrapping_add(1), value.wrapping_sub(1), 0, 255] {
        put(file, i, other);
        try_reading(trial, file);
        try_one(trial, file, 3, (i % 65536) as u32);
    }
    put(file, i, value);
}

// Every byte of a file changed in each way.
fn try_bytes(trial: &mut Trial, file: &mut [u8]) {
    for i in 0..file.len() {
        try_changed(trial, file, i);
    }
}

// A pair from a seed, shown reversed with one of the sizes.
fn try_drawn_pair(trial: &mut Trial, seed: &mut Seed, file: &[u8], most: u32) {
    let x = seed.draw(most) as usize;
    let y = seed.draw(most) as usize;
    let call = Call::Reversed {
        file,
        chosen: y,
        other: x,
    };
    try_pair(trial, file, x, y);
    try_way(trial, call, needed(call), seed.draw(WAYS));
}

fn try_some_pairs(trial: &mut Trial, seed: &mut Seed, file: &[u8], pairs: u32) {
    let r = second::trailer(file).unwrap_or_default();
    for i in 0..pairs {
        try_drawn_pair(trial, seed, file, r.events as u32 + 1);
    }
}

// A recording of one size alone has that size.
fn try_size(trial: &mut Trial, file: &[u8], g: Group) {
    if g.more == 0 {
        let r = second::trailer(file).unwrap_or_default();
        trial.count(r.events == g.least && r.tasks == g.tasks, file);
    }
}

// Some pairs or all shown reversed.
fn try_reversed(trial: &mut Trial, seed: &mut Seed, file: &[u8], g: Group) {
    if g.pairs == 0 {
        let call = Call::Reversed {
            file,
            chosen: 0,
            other: 0,
        };
        return try_pairs(trial, call, needed(call));
    }
    try_size(trial, file, g);
    try_some_pairs(trial, seed, file, g.pairs);
}

// One recording of the shape, damaged where that is asked.
fn try_file(trial: &mut Trial, seed: &mut Seed, s: Shape, g: Group) {
    let mut recording: Bytes<4200> = make(seed, s);
    if g.damaged {
        damage(seed, s, &mut recording);
    }
    let file = recording.written();
    match g.kind {
        Kind::Changed => try_bytes(trial, recording.room()),
        Kind::Asked => {
            let budget = draw_budget(seed, s.events);
            try_questions(trial, file, budget, b"====");
        }
        Kind::Pairs => try_reversed(trial, seed, file, g),
        Kind::Stretches => {
            try_size(trial, file, g);
            routines::try_stretches(trial, seed, file, g.pairs);
        }
        _ => try_made(trial, seed, file, s, g.all),
    }
}

fn try_shape(trial: &mut Trial, seed: &mut Seed, s: Shape, g: Group) {
    match g.kind {
        Kind::Jobs => jobs::try_shuffled(trial, seed, s, g.all),
        Kind::Altered => jobs::try_altered(trial, seed, s),
        Kind::Looks => looks::try_looks(trial, seed, s, g.all),
        Kind::Bytes => looks::try_bytes(trial, seed),
        _ => try_file(trial, seed, s, g),
    }
}

// The group of a row: `KIND SEED TIMES EDITION PAIRS | LEAST MORE TASKS SEMAPHORES CELLS ALL`.
pub(crate) fn group_in(row: &[u8]) -> Option<Group> {
    let head = section(row, 0);
    let s = section(row, 1);
    let (kind, damaged) = Kind::named(word(head, 0))?;
    Some(Group {
        kind,
        damaged,
        least: value(s, 0),
        more: value(s, 1),
        tasks: value(s, 2),
        semaphores: value(s, 3),
        cells: value(s, 4),
        edition: value(head, 3),
        all: value::<u16>(s, 5) == 1,
        pairs: value(head, 4),
    })
}

// So many recordings from a seed.
pub(crate) fn try_group(trial: &mut Trial, row: &[u8], group: Group) {
    let head = section(row, 0);
    let mut seed = Seed(value(head, 1));
    for i in 0..value::<u32>(head, 2) {
        let shape = draw_shape(&mut seed, group);
        try_shape(trial, &mut seed, shape, group);
    }
}
