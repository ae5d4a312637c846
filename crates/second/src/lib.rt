// A second analyser, for tests: what documents 01 and 02 ask, by another method. One reading fills
// a state, a wait's signal is found by counting, the k-th least and the list are sorted by
// counting, the look for a last event goes forward; in the recorded run a flag is one more event, between
// its posts and its waits, and what the run puts before an event is marked going back from it; the events of
// two recordings held together are looked up by task and position; of two stretches each event is held
// against each. It is proved safe and to end, with one plain fact of each call: its refusal's number is one
// of the table, or for a look, how many records it read at most. That the numbers are right is not proved:
// the trial compares them with the library's.
#![tactic(auto)]

ghost use Rattle.std.specs.Prelude.{◌≡◌, ◌/◌, ◌≤◌, length};
ghost use Rattle.second.specs.Refusals.{RefusesUpTo};

mod file;
mod job;
mod listing;
mod memory;
mod refusals;
mod reverse;
mod scan;
mod state;
mod stretches;
mod twin;
mod vectors;

use file::Recording;
use job::Side;
use listing::Pairs;
pub use refusals::Fault;
use state::State;
use vectors::{before, unordered};

// What a file's trailer says, with how many start bytes stand before it; there are as many post bytes as
// flags.
#[derive(Clone, Copy, PartialEq, Eq, Debug, Default)]
pub struct Reading {
    pub start: usize,
    pub events: u16,
    pub tasks: u16,
    pub semaphores: u16,
    pub flags: u16,
    pub cells: u16,
    pub edition: u16,
    pub starts: u16,
}

// The counts of a file that is to be written; semaphores is the trailer's field.
#[derive(Clone, Copy, PartialEq, Eq, Debug)]
pub struct Counts {
    pub tasks: u16,
    pub semaphores: u16,
    pub cells: u16,
    pub edition: u16,
}

// The parts of a file between its preamble and its trailer.
#[derive(Clone, Copy)]
pub struct Parts<'a> {
    pub records: &'a [u8],
    pub starts: &'a [u8],
    pub posts: &'a [u8],
}

// What analysing answers.
#[derive(Clone, Copy, PartialEq, Eq, Debug)]
pub struct Done {
    pub passes: u32,
    pub settled: bool,
    pub pairs: u32,
}

// How two events stand to each other.
#[derive(Clone, Copy, PartialEq, Eq, Debug)]
pub enum Relation {
    First = 1,
    Second,
    Open,
    Sure,
}

// Which of two stretches is before the other.
#[derive(Clone, Copy, PartialEq, Eq, Debug)]
pub enum Lead {
    First = 1,
    Second,
    Neither,
}

// A stretch of a task's work: its events from one position to another, both counted from 1.
#[derive(Clone, Copy, PartialEq, Eq, Debug)]
pub struct Stretch {
    pub task: u16,
    pub first: u16,
    pub last: u16,
}

// What a look for a task's last record gives: its number, and how many records there are from it on, or
// else all.
#[derive(Clone, Copy, PartialEq, Eq, Debug)]
pub struct Look {
    pub last: Option<usize>,
    pub read: usize,
}

// What the trailer of a file says, whatever its records are; refusals 1 to 4.
pub fn trailer(file: &[u8]) -> Result<Reading, Fault>
    ensures { RefusesUpTo 4 result }
{
    let recording = Recording::of(file)?;
    Ok(recording.reading)
}

// Reads a file, for what its trailer says or its refusal.
pub fn read(file: &[u8]) -> Result<Reading, Fault>
    ensures { RefusesUpTo 16 result }
{
    let mut state = State::EMPTY;
    let recording = scan::load(file, &mut state)?;
    Ok(recording.reading)
}

// Analyses a file. A refusal leaves what was lent as it came, but 10 leaves the work numbers filled.
pub fn analyse(file: &[u8], budget: u32, work: &mut [u16], list: &mut [u16]) -> Result<Done, Fault>
    ensures { RefusesUpTo 16 result }
{
    let mut state = State::EMPTY;
    let r = scan::load(file, &mut state)?.reading;
    if work.len() < r.work_needed() {
        return Err(Fault::Work);
    }
    let passes = vectors::fill(&mut state, &r, budget, work);
    let listed = Pairs {
        state: &state,
        twin: None,
    };
    let pairs = listed.list(list)?;
    Ok(Done {
        passes: passes.made,
        settled: passes.settled,
        pairs,
    })
}

// Reads a file, and fills the work numbers for a question about events a and b, unless it is refused.
fn prepare<'a>(
    state: &mut State,
    file: &'a [u8],
    a: usize,
    b: usize,
    budget: u32,
    work: &mut [u16],
) -> Result<Recording<'a>, Fault>
    ensures { RefusesUpTo 16 result }
{
    let recording = scan::load(file, state)?;
    let r = recording.reading;
    let n = r.events as usize;
    if n <= a || n <= b || a == b {
        return Err(Fault::Event);
    }
    if work.len() < r.work_needed() {
        return Err(Fault::Work);
    }
    vectors::fill(state, &r, budget, work);
    Ok(recording)
}

// How events a and b stand to each other.
fn related(state: &State, a: u16, b: u16) -> Relation {
    if before(state, &state.safe, a, b) {
        return Relation::First;
    }
    if before(state, &state.safe, b, a) {
        return Relation::Second;
    }
    if unordered(state, &state.recorded, a, b) {
        Relation::Sure
    } else {
        Relation::Open
    }
}

// Answers a question about two events. A refusal leaves what was lent as it came.
pub fn ask(
    file: &[u8],
    a: usize,
    b: usize,
    budget: u32,
    work: &mut [u16],
) -> Result<Relation, Fault>
    ensures { RefusesUpTo 16 result }
{
    let mut state = State::EMPTY;
    prepare(&mut state, file, a, b, budget, work)?;
    Ok(related(&state, (a % 1024) as u16, (b % 1024) as u16))
}

// Writes a file, and answers its length. A refusal leaves out as it came.
pub fn write(parts: Parts<'_>, counts: Counts, out: &mut [u8]) -> Result<usize, Fault>
    ensures { RefusesUpTo 16 result }
{
    let recording = Recording::made(parts, &counts)?;
    let mut state = State::EMPTY;
    scan::scan(&recording, &mut state)?;
    let length = recording.length();
    if out.len() < length {
        return Err(Fault::Out);
    }
    recording.put(out);
    Ok(length)
}

// The last record of a task in a part of the records, by its number in the part: one look from the first
// record to the last. Bytes behind the last whole record do not count.
pub fn last_event(part: &[u8], task: u16) -> Look
    ensures { result.read ≤ length part.now / 4 }
{
    let n = part.len() / 4;
    let (records, _) = part.as_chunks::<4>();
    let last = records
        .iter()
        .enumerate()
        .filter(|(_, [of, ..])| *of as u16 == task)
        .map(|(e, _)| e)
        .last();
    Look {
        last,
        read: n.saturating_sub(last.unwrap_or(0)),
    }
}

// Holds two recordings of one job together: their work numbers as after analysing each until it settles,
// and their one list, and answers how many pairs it has. Refusals other than 10 leave what was lent as it
// came, and 10 leaves the list so.
pub fn together(
    first: &[u8],
    second: &[u8],
    first_work: &mut [u16],
    second_work: &mut [u16],
    list: &mut [u16],
) -> Result<u32, Fault>
    ensures { RefusesUpTo 16 result }
{
    let one = Side {
        file: first,
        work: first_work,
    };
    let other = Side {
        file: second,
        work: second_work,
    };
    job::hold(one, other, list)
}

// Writes a recording that shows the chosen event earlier than the other, to out, and answers its length: 15,
// where the recorded run orders the two, and 12 leave out as it came and the work numbers filled as with
// budget 0; other refusals leave both.
pub fn write_reversed(
    file: &[u8],
    chosen: usize,
    other: usize,
    work: &mut [u16],
    out: &mut [u8],
) -> Result<usize, Fault>
    ensures { RefusesUpTo 16 result }
{
    let mut state = State::EMPTY;
    let recording = prepare(&mut state, file, chosen, other, 0, work)?;
    let x = (chosen % 1024) as u16;
    let y = (other % 1024) as u16;
    reverse::write_forward(&recording, &state, x, y, out)
}

// Tells which of two stretches is before the other. A refusal leaves what was lent as it came.
pub fn compare(
    file: &[u8],
    one: Stretch,
    other: Stretch,
    budget: u32,
    work: &mut [u16],
) -> Result<Lead, Fault>
    ensures { RefusesUpTo 17 result }
{
    let mut state = State::EMPTY;
    let r = scan::load(file, &mut state)?.reading;
    if !stretches::are_stretches(&state, r.tasks, &one, &other) {
        return Err(Fault::Stretch);
    }
    if work.len() < r.work_needed() {
        return Err(Fault::Work);
    }
    vectors::fill(&mut state, &r, budget, work);
    Ok(stretches::lead(&state, &one, &other))
}
