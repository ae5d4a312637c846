// Rows on writing: records with level bytes, in each length of the output, and with wrong numbers of level
// bytes.
use crate::recordings::{put_events, put_levels, shape_of};
use calls::call::{Call, needed};
use calls::tries::{try_answer, try_sized};
use calls::writing::output;
use rows::bytes::{Bytes, part_of};
use rows::records::field_of;
use rows::tally::Trial;
use rows::text::{section, value};
use second::{Counts, Parts};

// The counts of a row, from its first section.
pub(crate) fn counts_of(row: &[u8]) -> Counts {
    let s = shape_of(section(row, 1));
    Counts {
        tasks: s.tasks,
        semaphores: field_of(s),
        cells: s.cells,
        edition: s.edition,
    }
}

// Each length of the output up to some more than is needed: 12, or none.
fn try_outputs(trial: &mut Trial, call: Call) {
    let need = needed(call).out;
    for room in 0..need.wrapping_add(9) {
        let answer = if room < need {
            b"refused 12".as_slice()
        } else {
            b"refused 0".as_slice()
        };
        try_answer(trial, call, output(room), answer);
    }
}

// `write CUT | COUNTS | STARTS / POSTS | EVENTS | SIZES | ANSWER`: writing with so many record bytes
// less, the start bytes before '/' and the post bytes behind it; with no sizes, each length of the output.
pub(crate) fn try_write(trial: &mut Trial, row: &[u8]) {
    let mut bytes = Bytes::<400>::new();
    let mut starts = Bytes::<80>::new();
    let mut posts = Bytes::<80>::new();
    put_events(&mut bytes, section(row, 3));
    let mut levels = section(row, 2).splitn(2, |c| *c == b'/');
    put_levels(&mut starts, levels.next().unwrap_or_default());
    put_levels(&mut posts, levels.next().unwrap_or_default());
    let end = bytes.length.saturating_sub(value(section(row, 0), 1));
    let parts = Parts {
        records: part_of(bytes.all(), 0, end),
        starts: starts.written(),
        posts: posts.written(),
    };
    let call = Call::Write {
        parts,
        counts: counts_of(row),
    };
    let sizes = section(row, 4);
    if sizes.is_empty() {
        return try_outputs(trial, call);
    }
    try_sized(trial, call, sizes, section(row, 5));
}

// Writing an empty recording with n start bytes and m post bytes.
fn try_lend(trial: &mut Trial, counts: Counts, n: usize, m: usize, answer: &[u8]) {
    let bytes = [3u8; 65537];
    let parts = Parts {
        records: b"",
        starts: part_of(&bytes, 0, n),
        posts: part_of(&bytes, 0, m),
    };
    try_answer(trial, Call::Write { parts, counts }, output(8192), answer);
}

// `lend STARTS POSTS | COUNTS | ANSWER`: an empty recording written with so many start bytes and post
// bytes.
pub(crate) fn try_lent_levels(trial: &mut Trial, row: &[u8]) {
    let head = section(row, 0);
    try_lend(
        trial,
        counts_of(row),
        value(head, 1),
        value(head, 2),
        section(row, 2),
    );
}

// Refused by 13 but with the right number.
fn answer_where(right: bool) -> &'static [u8] {
    if right { b"refused 0" } else { b"refused 13" }
}

// `starts STARTS POSTS | COUNTS`: each number of start bytes up to 79 in place of the right one.
pub(crate) fn try_starts(trial: &mut Trial, row: &[u8]) {
    let head = section(row, 0);
    let n = value(head, 1);
    for i in 0..80usize {
        try_lend(
            trial,
            counts_of(row),
            i,
            value(head, 2),
            answer_where(i == n),
        );
    }
}

// `posts STARTS POSTS | COUNTS`: each number of post bytes.
pub(crate) fn try_posts(trial: &mut Trial, row: &[u8]) {
    let head = section(row, 0);
    let m = value(head, 2);
    for i in 0..80usize {
        try_lend(
            trial,
            counts_of(row),
            value(head, 1),
            i,
            answer_where(i == m),
        );
    }
}
