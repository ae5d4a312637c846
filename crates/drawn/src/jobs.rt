// Jobs from fixed seeds, recorded twice: a recording, and one with its records in another order that
// reading accepts, with another preamble or in another edition; some of them changed.
use calls::call::{Call, WAYS, list_of, needed, their_answer};
use calls::told::Told;
use calls::tries::{ENDLESS, try_way, try_ways};
use rows::bytes::{Bytes, at, at_least_one, part_of, put};
use rows::make::{Seed, damage, damage_byte, kinds_in, make};
use rows::records::{Kind, Record, Shape, place, put_preamble, put_record, put_trailer};
use rows::tally::{Met, Trial};
use second::Fault;

// ---- another order

// Changes the record at i with the next.
fn swap_records(file: &mut [u8], i: usize) {
    if let Some(both) = file.get_mut(i..i.wrapping_add(8)) {
        both.rotate_left(4);
    }
}

// Changes the record at i with the next, in one of two cases, where they are of two tasks and the file
// is accepted then.
fn try_swap(seed: &mut Seed, file: &mut [u8], i: usize) {
    if seed.draw(2) == 0 || at(file, i) == at(file, i.wrapping_add(4)) {
        return;
    }
    swap_records(file, i);
    if recording::read(file).is_err() {
        swap_records(file, i);
    }
}

// Six looks over the records but the last.
fn shuffle(seed: &mut Seed, file: &mut [u8]) {
    let r = second::trailer(file).unwrap_or_default();
    let start = (r.start % 65536) as u16;
    let n = r.events.saturating_sub(1);
    let m = at_least_one(n) as u32;
    for i in 0..n as u32 * 6 {
        try_swap(seed, file, place(start, (i % m % 65536) as u16));
    }
}

// ---- a second recording

// A recording of the shape with these records, but for the one that starts at a place of them, if any,
// and these level bytes.
fn recorded(s: Shape, records: &[u8], without: Option<usize>, levels: &[u8]) -> Bytes<4400> {
    let mut file = Bytes::new();
    let all = records.len();
    let cut = without.unwrap_or(all).min(all);
    put_preamble(&mut file, s.preamble);
    file.extend(part_of(records, 0, cut));
    file.extend(part_of(records, cut.wrapping_add(4), all));
    let n = file.length.saturating_sub(s.preamble as usize) / 4;
    file.extend(levels);
    put_trailer(&mut file, s.preamble as u32, (n % 65536) as u32, s);
    file
}

// Another edition in one of two cases: 2 in place of 1, and 3 with no flag in place of 2.
fn draw_edition(seed: &mut Seed, edition: u16) -> u16 {
    let other = match edition {
        1 => 2,
        2 => 3,
        _ => return edition,
    };
    if seed.draw(2) == 0 { other } else { edition }
}

// A second recording of the work of file one, which has shape s: another preamble, and another edition
// in one of two cases, with start counts of 0 where file one has none.
fn draw_second(seed: &mut Seed, one: &[u8], s: Shape, without: Option<usize>) -> Bytes<4400> {
    let zeros = [0u8; 64];
    let edition = draw_edition(seed, s.edition);
    let preamble = seed.draw_word(9);
    let z = Shape {
        edition,
        preamble,
        ..s
    };
    let records = recording::records(one);
    let end = place(s.preamble, (records.len() / 4 % 65536) as u16);
    let levels = match (s.edition, edition) {
        (1, 2) => part_of(&zeros, 0, s.semaphores as usize),
        (1, _) => b"",
        _ => part_of(one, end, one.len().saturating_sub(16)),
    };
    recorded(z, records, without, levels)
}

// A recording of the shape, and a second one of its work, but for a record if any, in another order.
fn draw_both(seed: &mut Seed, s: Shape, without: Option<usize>) -> (Bytes<4400>, Bytes<4400>) {
    let one: Bytes<4400> = make(seed, s);
    let mut two = draw_second(seed, one.written(), s, without);
    shuffle(seed, two.room());
    (one, two)
}

// ---- recordings of the same work

// Each pair of the one list is sure exactly where the list of one of the files has it so.
fn same_marks(a: &[u16], b: &[u16], both: &[u16], pairs: usize) -> bool {
    let lists = a.chunks_exact(3).zip(b.chunks_exact(3));
    lists.zip(both.chunks_exact(5)).take(pairs).all(|((x, y), joint)| {
        (at(joint, 4) == 1) == (at(x, 2) == 1 || at(y, 2) == 1)
    })
}

// How many pairs one of the lists alone has as sure.
fn one_sided(a: &[u16], b: &[u16], pairs: usize) -> usize {
    let lists = a.chunks_exact(3).zip(b.chunks_exact(3)).take(pairs);
    lists.filter(|(x, y)| at(x, 2) != at(y, 2)).count()
}

// The library's one list has as many pairs as its list of each file, and their marks; those that one
// file alone makes sure are met.
fn try_marks(trial: &mut Trial, one: &[u8], two: &[u8]) {
    let mut a = [0u16; 24576];
    let mut b = [0u16; 24576];
    let mut both = [0u16; 40960];
    let budget = ENDLESS;
    let found = list_of(Call::Analyse { file: one, budget }, &mut a);
    let other = list_of(Call::Analyse { file: two, budget }, &mut b);
    let joint = list_of(Call::Together { one, two }, &mut both);
    let pairs = if found < 8193 { found as usize } else { 0 };
    let agree = found == joint && other == joint && same_marks(&a, &b, &both, pairs);
    trial.count_both(agree, one, two);
    trial.meet(
        Met::OneSided,
        (one_sided(&a, &b, pairs) % 4294967296) as u32,
    );
}

// What the second analyser answers with enough work numbers and no list.
fn unlisted(one: &[u8], two: &[u8]) -> Told {
    their_answer(Call::Together { one, two }, &mut [0; 1], &mut [0; 1])
}

// Two recordings of the same work: accepted so, with all sizes or one of them, and the marks.
fn try_alike(trial: &mut Trial, one: &[u8], two: &[u8], all: bool, way: u32) {
    let call = Call::Together { one, two };
    let accepted = matches!(unlisted(one, two), Ok(_) | Err(Some(Fault::List { .. })));
    trial.count_both(accepted, one, two);
    if all {
        try_ways(trial, call, WAYS);
    } else {
        try_way(trial, call, needed(call), way);
    }
    try_marks(trial, one, two);
}

// A job recorded twice, the one or the other first.
pub(crate) fn try_shuffled(trial: &mut Trial, seed: &mut Seed, s: Shape, all: bool) {
    let (one, two) = draw_both(seed, s, None);
    let way = seed.draw(WAYS);
    if seed.draw(2) == 0 {
        return try_alike(trial, one.written(), two.written(), all, way);
    }
    try_alike(trial, two.written(), one.written(), all, way);
}

// ---- recordings that are changed

// What is done with the second recording, and with the first where both are damaged.
#[derive(Clone, Copy)]
enum Change {
    Record,
    Tasks,
    Level,
    Count,
    Lacking,
    Nothing,
    Damaged,
    BothDamaged,
}

const CHANGES: [Change; 8] = [
    Change::Record,
    Change::Tasks,
    Change::Level,
    Change::Count,
    Change::Lacking,
    Change::Nothing,
    Change::Damaged,
    Change::BothDamaged,
];

fn renamed(task: u8, a: u8, b: u8) -> u8 {
    if task == a {
        return b;
    }
    if task == b { a } else { task }
}

// The record at i with tasks a and b changed for each other, also where a fork or a join names one.
fn rename_record(file: &mut [u8], i: usize, a: u8, b: u8) {
    let object = i.wrapping_add(2);
    put(file, i, renamed(at(file, i), a, b));
    if let Some(Kind::Fork | Kind::Join) = Kind::numbered(at(file, i.wrapping_add(1))) {
        put(file, object, renamed(at(file, object), a, b));
    }
}

fn rename_tasks(file: &mut [u8], start: u16, n: u16, a: u8, b: u8) {
    for e in 0..n {
        rename_record(file, place(start, e), a, b);
    }
}

// The record at a place, of the same task, with another kind and object.
fn change_record(seed: &mut Seed, file: &mut [u8], i: usize, edition: u16) {
    let record = Record {
        task: u16::from(at(file, i)),
        kind: seed.draw_from(1, kinds_in(edition)),
        object: seed.draw_word(3),
    };
    put_record(file, i, record);
}

// Another record, two tasks for each other, another start count or post count, or another count.
fn alter(seed: &mut Seed, file: &mut [u8], what: Change) {
    let r = second::trailer(file).unwrap_or_default();
    let start = (r.start % 65536) as u16;
    let value = seed.draw(16) as u8;
    let back = seed.draw(3);
    let e = seed.draw_word(r.events);
    match what {
        Change::Record => change_record(seed, file, place(start, e), r.edition),
        Change::Tasks => rename_tasks(file, start, r.events, value % 3, value / 4),
        Change::Level => damage_byte(file, 16 + back, value % 4),
        _ => damage_byte(file, 3 + back * 2, value),
    }
}

// Two files, both ways round; a difference at a position is met.
fn try_unlike(trial: &mut Trial, one: &[u8], two: &[u8], way: u32) {
    let there = Call::Together { one, two };
    let back = Call::Together { one: two, two: one };
    try_way(trial, there, needed(there), way);
    try_way(trial, back, needed(back), way);
    match unlisted(one, two) {
        Err(Some(Fault::Differ { position, .. })) if position != 0 => {
            trial.meet(Met::Differing, 1);
        }
        _ => {}
    }
}

// Two recordings of which one is changed, lacks a record or is damaged, or both are damaged.
pub(crate) fn try_altered(trial: &mut Trial, seed: &mut Seed, s: Shape) {
    let what = CHANGES[seed.draw(8) as usize];
    let gone = place(0, seed.draw_word(s.events));
    let without = match what {
        Change::Lacking => Some(gone),
        _ => None,
    };
    let (mut one, mut two) = draw_both(seed, s, without);
    match what {
        Change::Lacking | Change::Nothing => {}
        Change::Damaged => damage(seed, s, &mut two),
        Change::BothDamaged => {
            damage(seed, s, &mut one);
            damage(seed, s, &mut two);
        }
        _ => alter(seed, two.room(), what),
    }
    try_unlike(trial, one.written(), two.written(), seed.draw(WAYS));
}
