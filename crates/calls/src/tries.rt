// What is compared of one file or of two, with a count of the comparisons.
ghost use Rattle.std.specs.Prelude.{◌≤◌};

use crate::call::{Call, Lent, WAYS, needed, ours, parts_of, sizes_in};
use crate::compare::{Outcome, compare};
use crate::reading::{counts_of, reading_agrees, reads_as};
use crate::shown::{try_pair, try_shown};
use crate::told::{Answer, Told, length};
use rows::bytes::{part_of, product};
use rows::tally::{Met, Trial};
use rows::text::{is_space, is_word, value, word};
use second::{Fault, Lead};

// A budget with which every recording settles.
pub const ENDLESS: u32 = 4294967295;

// What an answer refuses: the number of the refusal, its record, and the task and position that differ; 0 for
// each that there is not.
fn refusal(fault: Option<Fault>) -> [u16; 4] {
    match fault {
        Some(Fault::Differ { task, position }) => [14, 0, task, position],
        Some(fault) => [fault.number(), fault.record().unwrap_or(0), 0, 0],
        None => [0; 4],
    }
}

// Reading refuses a file by this number at this record; 0 accepts it.
pub fn try_refused(trial: &mut Trial, file: &[u8], number: u16, record: u16)
    ensures { trial.old.tally.wrong ≤ trial.new.tally.wrong }
{
    let read = refusal(second::read(file).err());
    trial.count(read == [number, record, 0, 0], file);
}

// ---- calls

// What comparing two stretches answered is met.
fn meet(trial: &mut Trial, told: Told)
    ensures { trial.old.tally.wrong ≤ trial.new.tally.wrong }
{
    match told {
        Ok(Answer::Leads(Lead::First | Lead::Second)) => trial.meet(Met::Leading, 1),
        Ok(Answer::Leads(Lead::Neither)) => trial.meet(Met::Neither, 1),
        Err(Some(Fault::Stretch)) => trial.meet(Met::Unfit, 1),
        _ => {}
    }
}

// A call that came out so, with this output. Where a whole file was written, it is read back; where it
// shows a pair reversed, that is looked at; what stretches are to each other is met.
fn try_outcome(trial: &mut Trial, call: Call, o: Outcome, out: &[u8])
    ensures { trial.old.tally.wrong ≤ trial.new.tally.wrong }
{
    let told = o.told;
    let written = part_of(out, 0, length(told));
    let read = match call {
        Call::Write { parts, counts } => told.is_err() || reads_as(written, parts, counts),
        _ => true,
    };
    let (one, two) = call.files();
    trial.count_both(o.agrees && read, one, two);
    match call {
        Call::Reversed {
            file,
            chosen,
            other,
        } => try_shown(trial, file, chosen, other, told, written),
        Call::Compare { .. } => meet(trial, told),
        _ => {}
    }
}

// A call with these lengths of lent memory.
pub fn try_lent(trial: &mut Trial, call: Call, l: Lent)
    ensures { trial.old.tally.wrong ≤ trial.new.tally.wrong }
{
    let mut out = [0u8; 8192];
    let o = compare(call, l, &mut out);
    try_outcome(trial, call, o, &out);
}

// A call with one of the sizes of lent memory. The last of two files held together turns them.
pub fn try_way(trial: &mut Trial, call: Call, need: Lent, way: u32)
    ensures { trial.old.tally.wrong ≤ trial.new.tally.wrong }
{
    match call {
        Call::Together { one, two } if way == 7 => {
            try_lent(
                trial,
                Call::Turned { one, two },
                need.sized(sizes_in(b"99==")),
            );
        }
        _ => try_lent(trial, call, need.sized_by(way)),
    }
}

// A call with so many of the sizes.
pub fn try_ways(trial: &mut Trial, call: Call, ways: u32)
    ensures { trial.old.tally.wrong ≤ trial.new.tally.wrong }
{
    let need = needed(call);
    for way in 0..ways {
        try_way(trial, call, need, way);
    }
}

// Analysing with each of its sizes.
pub fn try_analysing(trial: &mut Trial, file: &[u8], budget: u32)
    ensures { trial.old.tally.wrong ≤ trial.new.tally.wrong }
{
    try_ways(trial, Call::Analyse { file, budget }, 6);
}

// ---- calls with an answer by hand

// `refused NUMBER RECORD TASK POSITION`: what a call answers, 0 for each that is left out.
fn is_refused(told: Told, s: &[u8]) -> bool {
    let fault = match told {
        Ok(_) => None,
        Err(None) => return false,
        Err(fault) => fault,
    };
    refusal(fault) == [value(s, 1), value(s, 2), value(s, 3), value(s, 4)]
}

// A call that answers so is refused as the row says.
pub fn try_refusal(trial: &mut Trial, call: Call, told: Told, s: &[u8])
    ensures { trial.old.tally.wrong ≤ trial.new.tally.wrong }
{
    let (one, two) = call.files();
    trial.count_both(is_refused(told, s), one, two);
}

// `leads N`: which of two stretches is before the other, 3 for neither; 0 for an answer of another kind.
fn is_led(told: Told, s: &[u8]) -> bool {
    match told {
        Ok(Answer::Leads(lead)) => lead as u16 == value(s, 1),
        Ok(Answer::Related(relation)) => relation as u16 == value(s, 1),
        _ => value::<u16>(s, 1) == 0,
    }
}

// `leads ..` or `refused ..`.
fn try_told(trial: &mut Trial, call: Call, told: Told, s: &[u8])
    ensures { trial.old.tally.wrong ≤ trial.new.tally.wrong }
{
    if word(s, 0).first() != Some(&b'l') {
        return try_refusal(trial, call, told, s);
    }
    let (one, two) = call.files();
    trial.count_both(is_led(told, s), one, two);
}

// A call that answers so, with these lengths of lent memory.
pub fn try_answer(trial: &mut Trial, call: Call, l: Lent, answer: &[u8])
    ensures { trial.old.tally.wrong ≤ trial.new.tally.wrong }
{
    let mut out = [0u8; 8192];
    let o = compare(call, l, &mut out);
    try_told(trial, call, o.told, answer);
    try_outcome(trial, call, o, &out);
}

// A call that answers so, with each of the lent sizes that are named.
pub fn try_sized(trial: &mut Trial, call: Call, sizes: &[u8], answer: &[u8])
    ensures { trial.old.tally.wrong ≤ trial.new.tally.wrong }
{
    let need = needed(call);
    for letters in sizes.split(is_space).filter(is_word).take(8) {
        try_answer(trial, call, need.sized(sizes_in(letters)), answer);
    }
}

// ---- pairs of events

// A question about a and b; or both shown reversed, and with one of the sizes, where a is at most b.
fn try_events(trial: &mut Trial, call: Call, a: usize, b: usize, l: Lent)
    ensures { trial.old.tally.wrong ≤ trial.new.tally.wrong }
{
    match call {
        Call::Ask { file, budget, .. } => try_lent(trial, Call::Ask { file, a, b, budget }, l),
        Call::Reversed { file, .. } if a <= b => {
            let sum = (a % 65536 + b % 65536) as u32;
            let reversed = Call::Reversed {
                file,
                chosen: a,
                other: b,
            };
            try_pair(trial, file, a, b);
            try_way(trial, reversed, l, sum % WAYS);
        }
        _ => {}
    }
}

// All pairs of events, with events past the last one.
pub fn try_pairs(trial: &mut Trial, call: Call, l: Lent)
    ensures { trial.old.tally.wrong ≤ trial.new.tally.wrong }
{
    let (file, _) = call.files();
    let most = second::trailer(file).unwrap_or_default().events % 65534 + 2;
    for i in 0..product(most, most) {
        try_events(trial, call, i / most as usize, i % most as usize, l);
    }
}

// The question about all pairs of events, with so many work numbers.
pub fn try_questions(trial: &mut Trial, file: &[u8], budget: u32, letters: &[u8])
    ensures { trial.old.tally.wrong ≤ trial.new.tally.wrong }
{
    let call = Call::Ask {
        file,
        a: 0,
        b: 0,
        budget,
    };
    try_pairs(trial, call, needed(call).sized(sizes_in(letters)));
}

// ---- reading

// An accepted file with start 0, written again, has its bytes.
fn rewriting_agrees(file: &[u8]) -> bool {
    let Ok(r) = second::read(file) else {
        return true;
    };
    if r.start != 0 {
        return true;
    }
    let mut out = [0u8; 8192];
    let write = Call::Write {
        parts: parts_of(file),
        counts: counts_of(r),
    };
    match ours(write, &mut [], &mut [], &mut [], &mut out) {
        Ok(Answer::Length(n)) => part_of(&out, 0, n) == file,
        _ => false,
    }
}

// Reading a file, and writing it again.
pub fn try_reading(trial: &mut Trial, file: &[u8])
    ensures { trial.old.tally.wrong ≤ trial.new.tally.wrong }
{
    trial.count(reading_agrees(file), file);
    trial.count(rewriting_agrees(file), file);
}
