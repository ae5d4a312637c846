// Rows on single recordings: worked ones with answers written by hand, and calls at the edge of a refusal; and
// two recordings held together.
use crate::recordings::recording_in;
use calls::call::{Call, Lent, WAYS, answer, needed};
use calls::lists::try_one;
use calls::printed::{try_printing, try_text};
use calls::shown::{try_pair, try_sizes};
use calls::told::Answer;
use calls::tries::{
    ENDLESS, try_analysing, try_lent, try_questions, try_reading, try_refusal, try_refused,
    try_sized, try_ways,
};
use calls::writing::try_writing;
use rows::bytes::{Bytes, at, part_of};
use rows::records::record_at;
use rows::tally::Trial;
use rows::text::{digit, section, value, word};
use second::{Done, Stretch};

// ---- answers

// The numbers of a list are the digits of a text.
fn same_digits(list: &[u16], text: &[u8]) -> bool {
    text.iter()
        .enumerate()
        .all(|(i, c)| at(list, i) == u16::from(c.saturating_sub(b'0')))
}

// A digit for each number of a list, '-' for none.
fn entries_of(w: &[u8]) -> &[u8] {
    if w.first() == Some(&b'-') { b"" } else { w }
}

// As many pairs as take so many numbers of a list.
fn pairs_in(numbers: usize, each: u8) -> u32 {
    u32::try_from(numbers / (each as usize).max(1)).unwrap_or(u32::MAX)
}

fn is_refusal(s: &[u8]) -> bool {
    word(s, 0).first() == Some(&b'r')
}

// `lists PASSES ENTRIES`: the library makes so many passes, settles unless it makes none, which is then
// its whole budget, and lists these entries. Or `refused NUMBER RECORD`.
fn try_listed(trial: &mut Trial, file: &[u8], s: &[u8]) {
    let mut list = [0u16; 64];
    if is_refusal(s) {
        return try_refused(trial, file, value(s, 1), value(s, 2));
    }
    let passes = value(s, 1);
    let budget = if passes == 0 { 0 } else { ENDLESS };
    let told = answer(Call::Analyse { file, budget }, &mut list, &mut [0; 1]);
    let entries = entries_of(word(s, 2));
    let done = Done {
        passes,
        settled: passes != 0,
        pairs: pairs_in(entries.len(), 3),
    };
    trial.count(
        told == Ok(Answer::Analysed(done)) && same_digits(&list, entries),
        file,
    );
}

// ---- whole recordings

fn try_budgets(trial: &mut Trial, file: &[u8]) {
    for budget in 0..5u32 {
        try_analysing(trial, file, budget);
        try_questions(trial, file, budget, b"====");
    }
}

// `whole | COUNTS | LEVELS | EVENTS | ANSWER`: all that is compared of a small file.
pub(crate) fn try_whole(trial: &mut Trial, row: &[u8]) {
    let recording: Bytes<4400> = recording_in(row, 1);
    let file = recording.written();
    try_listed(trial, file, section(row, 4));
    try_reading(trial, file);
    try_budgets(trial, file);
    try_analysing(trial, file, ENDLESS);
    try_questions(trial, file, ENDLESS, b"-===");
    try_writing(trial, file);
    try_printing(trial, file);
}

// `brief`: one size of each memory.
pub(crate) fn try_brief(trial: &mut Trial, row: &[u8]) {
    let recording: Bytes<4400> = recording_in(row, 1);
    let file = recording.written();
    try_listed(trial, file, section(row, 4));
    try_reading(trial, file);
    try_one(trial, file, ENDLESS, (recording.length % 65536) as u32 / 4);
}

// A text whose lines end in ';', from the second byte of a section to the last ';'.
fn text_in(s: &[u8]) -> Bytes<400> {
    let mut text = Bytes::new();
    let end = s.iter().rposition(|c| *c == b';').unwrap_or(0);
    for c in part_of(s, 1, end.wrapping_add(1)) {
        text.push(if *c == b';' { b'\n' } else { *c });
    }
    text
}

// `prints | COUNTS | LEVELS | EVENTS | TEXT`: what is printed of a recording.
pub(crate) fn try_prints(trial: &mut Trial, row: &[u8]) {
    let recording: Bytes<400> = recording_in(row, 1);
    let text = text_in(section(row, 4));
    try_text(trial, recording.written(), text.written());
}

// ---- calls

// The stretch that three numbers of a row's head say, from word k on.
fn stretch_at(head: &[u8], k: u8) -> Stretch {
    let k = k as usize;
    Stretch {
        task: value(head, k),
        first: value(head, k + 1),
        last: value(head, k + 2),
    }
}

// The call of a row's head: `analyse BUDGET`, `ask A B BUDGET`, `reversed A B`, or `compare TASK FIRST LAST
// TASK FIRST LAST BUDGET`.
fn call_in<'a>(head: &[u8], file: &'a [u8]) -> Call<'a> {
    match word(head, 0) {
        b"analyse" => Call::Analyse {
            file,
            budget: value(head, 1),
        },
        b"ask" => Call::Ask {
            file,
            a: value(head, 1),
            b: value(head, 2),
            budget: value(head, 3),
        },
        b"reversed" => Call::Reversed {
            file,
            chosen: value(head, 1),
            other: value(head, 2),
        },
        _ => Call::Compare {
            file,
            one: stretch_at(head, 1),
            other: stretch_at(head, 4),
            budget: value(head, 7),
        },
    }
}

// `HEAD | COUNTS | LEVELS | EVENTS | SIZES | ANSWER`.
pub(crate) fn try_call(trial: &mut Trial, row: &[u8]) {
    let recording: Bytes<4400> = recording_in(row, 1);
    let call = call_in(section(row, 0), recording.written());
    try_sized(trial, call, section(row, 4), section(row, 5));
}

// ---- pairs shown reversed

// The library writes the file's records in this order, a digit for each, or refuses the pair so.
fn shows_as(file: &[u8], chosen: usize, other: usize, s: &[u8]) -> bool {
    let mut shown = [0u8; 400];
    let call = Call::Reversed {
        file,
        chosen,
        other,
    };
    let told = answer(call, &mut [0; 1], &mut shown);
    let order = word(s, 0);
    if is_refusal(s) {
        return match told {
            Ok(_) => value::<u16>(s, 1) == 0,
            Err(Some(fault)) => fault.number() == value(s, 1),
            Err(None) => false,
        };
    }
    let records = recording::records(file);
    let n = (order.len() % 16) as u16;
    told.is_ok()
        && n as usize == records.len() / 4
        && (0..n).all(|i| {
            record_at(records, digit(order, i as usize) as u16) == record_at(&shown, i)
        })
}

// `shows X Y | COUNTS | LEVELS | EVENTS | ORDER | OTHER`: the order with x chosen, and with y chosen.
pub(crate) fn try_shows(trial: &mut Trial, row: &[u8]) {
    let recording: Bytes<400> = recording_in(row, 1);
    let head = section(row, 0);
    let x = value(head, 1);
    let y = value(head, 2);
    let file = recording.written();
    trial.count(shows_as(file, x, y, section(row, 4)), file);
    trial.count(shows_as(file, y, x, section(row, 5)), file);
    try_pair(trial, file, x, y);
    try_sizes(trial, file, x, y);
}

// ---- two recordings

// Each length of each work memory and of the list, up to some more than is needed.
fn try_rooms(trial: &mut Trial, call: Call) {
    let need = needed(call);
    for n in 0..need.work.max(need.list).wrapping_add(9) {
        try_lent(trial, call, Lent { work: n, ..need });
        try_lent(trial, call, Lent { other: n, ..need });
        try_lent(trial, call, Lent { list: n, ..need });
    }
}

// `pairs ENTRIES`, or `refused ..`.
fn try_joint(trial: &mut Trial, one: &[u8], two: &[u8], s: &[u8]) {
    let mut list = [0u16; 64];
    let call = Call::Together { one, two };
    let told = answer(call, &mut list, &mut [0; 1]);
    if is_refusal(s) {
        return try_refusal(trial, call, told, s);
    }
    let entries = entries_of(word(s, 1));
    let pairs = Answer::Pairs(pairs_in(entries.len(), 5));
    trial.count_both(told == Ok(pairs) && same_digits(&list, entries), one, two);
}

// `both | COUNTS | LEVELS | EVENTS | COUNTS | LEVELS | EVENTS | ANSWER`: two files, in every size of
// lent memory.
pub(crate) fn try_both(trial: &mut Trial, row: &[u8]) {
    let a: Bytes<400> = recording_in(row, 1);
    let b: Bytes<400> = recording_in(row, 4);
    let one = a.written();
    let two = b.written();
    let call = Call::Together { one, two };
    try_joint(trial, one, two, section(row, 7));
    try_rooms(trial, call);
    try_ways(trial, call, WAYS);
}
