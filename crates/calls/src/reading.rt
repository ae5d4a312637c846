// Reading by the library and by the second analyser: the answer, the parts of a file and the walk.
use crate::call::parts_of;
use crate::told::fault;
use model::Refusal;
use rows::bytes::{at, part_of};
use rows::records::{object_of, place};
use second::{Counts, Fault, Parts, Reading};

pub(crate) fn counts_of(r: Reading) -> Counts {
    Counts {
        tasks: r.tasks,
        semaphores: r.flags % 256 * 256 + r.semaphores % 256,
        cells: r.cells,
        edition: r.edition,
    }
}

// The library's counts in the second analyser's form.
fn our_counts(c: model::Counts) -> Counts {
    Counts {
        tasks: c.tasks,
        semaphores: c.semaphores,
        cells: c.cells,
        edition: c.edition,
    }
}

fn same_reading(ours: Result<model::Trailer, Refusal>, theirs: Result<Reading, Fault>) -> bool {
    match (ours, theirs) {
        (Ok(h), Ok(r)) => {
            h.start == r.start
                && h.records == r.events as usize
                && our_counts(h.counts) == counts_of(r)
        }
        (Err(x), Err(y)) => fault(x) == Some(y),
        _ => false,
    }
}

// A step of the walk at record e yields that record of the part, or the end at or past the last.
fn same_step(records: &[u8], e: u16, n: u16) -> bool {
    let step = walk::step_at(records, e as usize);
    let i = place(0, e);
    match step.item {
        Some(v) => {
            e < n
                && step.next == e as usize + 1
                && v.task == at(records, i)
                && v.kind == at(records, i + 1)
                && v.object == object_of(records, e)
        }
        None => n <= e && step.next == e as usize,
    }
}

// The walk from record 0 yields n records and the end, and past the last record the end too.
fn same_walk(records: &[u8], n: u16) -> bool {
    (0..n).all(|e| same_step(records, e, n))
        && same_step(records, n, n)
        && same_step(records, 65535, n)
}

// The four parts of an accepted file follow one another. A part that lacks its last byte has one whole
// record less.
fn same_parts(file: &[u8], r: Reading) -> bool {
    let start = r.start % 4294967296;
    let end = start + r.events as usize * 4;
    let mid = end + r.starts as usize;
    let parts = parts_of(file);
    let cut = match r.events.checked_sub(1) {
        Some(n) => same_walk(part_of(file, start, end - 1), n),
        None => true,
    };
    cut && recording::preamble(file) == part_of(file, 0, start)
        && parts.records == part_of(file, start, end)
        && parts.starts == part_of(file, end, mid)
        && parts.posts == part_of(file, mid, mid + r.flags as usize)
        && same_walk(parts.records, r.events)
}

// Reading, the preamble, the records' part, the start bytes, the post bytes and the walk. The parts of
// a refused file are empty.
pub(crate) fn reading_agrees(file: &[u8]) -> bool {
    let theirs = second::read(file);
    if !same_reading(recording::read(file), theirs) {
        return false;
    }
    if let Ok(r) = theirs {
        return same_parts(file, r);
    }
    let parts = parts_of(file);
    recording::preamble(file).is_empty()
        && parts.records.is_empty()
        && parts.starts.is_empty()
        && parts.posts.is_empty()
        && same_walk(parts.records, 0)
}

// Reading a file gives these parts and counts, at the start of the file.
pub(crate) fn reads_as(file: &[u8], parts: Parts, counts: Counts) -> bool {
    let Ok(r) = second::read(file) else {
        return false;
    };
    let read = parts_of(file);
    reading_agrees(file)
        && r.start == 0
        && counts_of(r) == counts
        && read.records == parts.records
        && read.starts == parts.starts
        && read.posts == parts.posts
}
