// Looks for a task's last event, in all parts of drawn recordings and of any bytes.
use calls::looks::{try_look, try_same_last};
use rows::bytes::{Bytes, at, part_of, product};
use rows::make::{Seed, make};
use rows::records::{Kind, Shape, object_of, place};
use rows::tally::Trial;

// ---- all parts

// Each task, and a number above a byte whose low byte is the task's.
fn try_tasks(trial: &mut Trial, part: &[u8], tasks: u16) {
    for task in 0..tasks {
        try_look(trial, part, task);
        try_look(trial, part, 256 + task % 128 * 257);
    }
}

// Every part, also one that starts or ends within a record.
fn try_parts(trial: &mut Trial, bytes: &[u8], tasks: u16) {
    let ends = (bytes.len() % 65535) as u16 + 1;
    for i in 0..product(ends, ends) {
        let from = i / ends as usize;
        let to = i % ends as usize;
        if from <= to {
            try_tasks(trial, part_of(bytes, from, to), tasks);
        }
    }
}

fn draw_bytes(seed: &mut Seed, bytes: &mut [u8], values: u32) {
    for b in bytes.iter_mut() {
        *b = (seed.draw(values) % 256) as u8;
    }
}

// Bytes that are no recording: all parts of a few with few values, and many bytes with all values.
pub(crate) fn try_bytes(trial: &mut Trial, seed: &mut Seed) {
    let mut few = [0u8; 23];
    let mut many = [0u8; 4097];
    draw_bytes(seed, &mut few, 5);
    draw_bytes(seed, &mut many, 256);
    try_parts(trial, &few, 6);
    try_tasks(trial, &many, 256);
}

// ---- recordings

// In the part before its join, the joined task's last event is that of the whole file.
fn try_joins(trial: &mut Trial, records: &[u8], n: u16) {
    for e in 0..n {
        if at(records, place(1, e)) == Kind::Join as u8 {
            let part = part_of(records, 0, place(0, e));
            try_same_last(trial, part, records, object_of(records, e));
        }
    }
}

// A recording of the shape is accepted; each join, each task, and all parts where that is asked.
pub(crate) fn try_looks(trial: &mut Trial, seed: &mut Seed, s: Shape, all: bool) {
    let made: Bytes<4200> = make(seed, s);
    let file = made.written();
    let r = second::trailer(file).unwrap_or_default();
    let records = recording::records(file);
    trial.count(second::read(file).is_ok(), file);
    try_joins(trial, records, r.events);
    try_tasks(trial, records, 17);
    if all {
        try_parts(trial, records, 6);
    }
}
