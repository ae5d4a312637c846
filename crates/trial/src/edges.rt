// Rows on files at the ends of what a trailer may say.
use crate::recordings::shape_of;
use crate::written::counts_of;
use calls::call::Call;
use calls::tries::{try_analysing, try_lent, try_reading, try_refused};
use calls::writing::{output, try_writing};
use rows::bytes::{Bytes, first, part_of, put, put_all};
use rows::records::{Shape, put_trailer};
use rows::tally::Trial;
use rows::text::{section, value};
use second::{Counts, Parts};

// Bytes before the first record, where the file has so many.
fn mark_preamble(file: &mut [u8], start: usize) {
    if start <= file.len() {
        first(file, start).fill(90);
    }
}

// Writes of cell 0 from a place on.
fn put_writes(file: &mut [u8], start: usize) {
    for e in 0..1025usize {
        put(file, start.wrapping_add(e * 4 + 1), 6);
    }
}

// Levels of 3 from one place to another.
fn put_threes(file: &mut [u8], from: usize, to: usize) {
    file.get_mut(from..to).unwrap_or_default().fill(3);
}

// A file of so many bytes, with writes of cell 0 from the start on, in edition 3 levels of 3 between the records
// and the trailer, and a trailer.
fn put_edge(file: &mut [u8], length: usize, start: u32, records: u32, s: Shape) {
    let Some(end) = length.checked_sub(16) else {
        return;
    };
    let from = start as usize;
    let mut trailer = Bytes::<16>::new();
    put_trailer(&mut trailer, start, records, s);
    mark_preamble(file, from);
    put_writes(file, from);
    if s.edition == 3 {
        put_threes(file, from + records as usize * 4, end);
    }
    put_all(file, end, trailer.written());
}

// Writing the bytes between preamble and trailer with these counts, in range or not: all as records,
// and the first of them as records and the others as level bytes.
fn try_between(trial: &mut Trial, between: &[u8], size: usize, counts: Counts) {
    let all = between.len();
    let low = size.wrapping_add(counts.semaphores as usize % 256);
    let mid = if counts.edition == 3 {
        low.min(all)
    } else {
        all
    };
    let whole = Parts {
        records: between,
        starts: b"",
        posts: b"",
    };
    let parts = Parts {
        records: part_of(between, 0, size),
        starts: part_of(between, size, mid),
        posts: part_of(between, mid, all),
    };
    for parts in [whole, parts] {
        try_lent(trial, Call::Write { parts, counts }, output(8192));
    }
}

// `edge LENGTH START RECORDS | COUNTS | refused NUMBER`.
pub(crate) fn try_edge(trial: &mut Trial, row: &[u8]) {
    let mut bytes = [0u8; 4400];
    let head = section(row, 0);
    let length = value(head, 1);
    let start = value(head, 2);
    let records = value(head, 3);
    put_edge(
        &mut bytes,
        length,
        start,
        records,
        shape_of(section(row, 1)),
    );
    let file = part_of(&bytes, 0, length);
    try_refused(trial, file, value(section(row, 2), 1), 0);
    let between = part_of(file, start as usize, length.saturating_sub(16));
    try_between(trial, between, records as usize * 4, counts_of(row));
    try_analysing(trial, file, 2);
    try_writing(trial, file);
    try_reading(trial, file);
}
