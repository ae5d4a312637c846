// Safe and recorded vectors. The k-th least is found by counting how often each value occurs.
use crate::Reading;
use crate::memory::{at, put};
use crate::state::{Event, Kind, State};

// A vector: a number for each task.
pub(crate) type Row = [u16; 16];

// The vectors of so many events and flags.
#[derive(Drop)]
pub(crate) struct Vectors<const N: usize> {
    pub(crate) rows: [Row; N],
}

impl<const N: usize> Vectors<N> {
    pub(crate) fn row(&self, e: u16) -> Row {
        self.rows.get(e as usize).copied().unwrap_or([0; 16])
    }

    // Raises the vector of an event, and answers whether it rose.
    pub(crate) fn raise(&mut self, e: u16, by: &Row) -> bool {
        match self.rows.get_mut(e as usize) {
            Some(row) => raise_row(row, by),
            None => false,
        }
    }

    // Raises it by that of another event, if any.
    fn raise_by(&mut self, e: u16, other: Option<u16>) -> bool {
        match other {
            Some(x) => {
                let by = self.row(x);
                self.raise(e, &by)
            }
            None => false,
        }
    }
}

// Raises each number to that of the other vector, and answers whether one rose.
fn raise_row(row: &mut Row, by: &Row) -> bool {
    let mut rose = false;
    for (number, least) in row.iter_mut().zip(by) {
        if *number < *least {
            *number = *least;
            rose = true;
        }
    }
    rose
}

// How many passes were made, and whether they settled.
#[derive(Clone, Copy)]
pub(crate) struct Passes {
    pub(crate) made: u32,
    pub(crate) settled: bool,
}

// How often each value occurs among the candidates' numbers for each task.
type Occurrences = [[u16; 16]; 1025];

// What a wait finds among the events: how many waits on its semaphore are ordered before it, and how many
// candidates there are.
#[derive(Clone, Copy)]
struct Found {
    waits: u16,
    candidates: u16,
}

// Step 1.
fn follow(state: &mut State, e: u16, event: &Event) -> bool {
    let joined = if event.kind == Kind::Join {
        event.follows
    } else {
        None
    };
    let rose = state.safe.raise_by(e, event.before);
    state.safe.raise_by(e, joined) | rose
}

// The starting vector of event e, and its recorded one. A flag follows the posts that open it.
pub(crate) fn replay(state: &mut State, e: u16, event: &Event) {
    let mut start = [0u16; 16];
    put(&mut start, event.task as usize, event.position);
    state.safe.raise(e, &start);
    state.recorded.raise(e, &start);
    state.recorded.raise_by(e, event.before);
    state.recorded.raise_by(e, event.follows);
    if let Some(flag) = event.opens {
        state.recorded.raise_by(flag, Some(e));
    }
}

// An event a, as it is before b or not by the vector of b.
fn is_in(event: &Event, vector: &Row) -> bool {
    event.position <= at(vector, event.task as usize)
}

// Event a is ordered before event b.
pub(crate) fn before<const N: usize>(state: &State, vectors: &Vectors<N>, a: u16, b: u16) -> bool {
    a != b && is_in(&state.event(a), &vectors.row(b))
}

pub(crate) fn unordered<const N: usize>(
    state: &State,
    vectors: &Vectors<N>,
    a: u16,
    b: u16,
) -> bool {
    !(before(state, vectors, a, b) || before(state, vectors, b, a))
}

// Counts the numbers of a candidate, by value and task.
fn count_numbers(vector: &Row, counts: &mut Occurrences) {
    for (t, value) in vector.iter().enumerate() {
        if let Some(numbers) = counts.get_mut(*value as usize) {
            let so_far = at(numbers, t);
            put(numbers, t, so_far.wrapping_add(1));
        }
    }
}

// What a wait or a flag wait e finds among the events.
fn find(state: &State, e: u16, event: &Event, counts: &mut Occurrences) -> Found {
    let serves = if event.kind == Kind::Wait {
        Kind::Signal
    } else {
        Kind::Post
    };
    let own = state.safe.row(e);
    let mut found = Found {
        waits: 0,
        candidates: 0,
    };
    for (i, x) in (0u16..).zip(state.events()) {
        if x.is_on(Kind::Wait, event.object) && i != e && is_in(x, &own) {
            found.waits = found.waits.wrapping_add(1);
        }
        if x.is_on(serves, event.object) && !is_in(event, &state.safe.row(i)) {
            count_numbers(&state.safe.row(i), counts);
            found.candidates = found.candidates.wrapping_add(1);
        }
    }
    found
}

// The k-th least value that was counted for a task, or 0.
fn kth(counts: &Occurrences, t: usize, k: u16) -> u16 {
    let mut passed = 0u16;
    for (value, numbers) in (0u16..).zip(counts) {
        passed = passed.wrapping_add(at(numbers, t));
        if k <= passed {
            return value;
        }
    }
    0
}

// The k-th least value for each task.
fn kth_row(counts: &Occurrences, k: u16) -> Row {
    let mut row = [0u16; 16];
    for (t, number) in row.iter_mut().enumerate() {
        *number = kth(counts, t, k);
    }
    row
}

// How many posts a flag wait needs, as its level says; or how many signals a wait needs, for the waits
// before it and for itself, but for those that are there from the start.
fn needed(event: &Event, waits: u16) -> u16 {
    if event.kind == Kind::FlagWait {
        return event.level;
    }
    match waits.checked_sub(event.level) {
        Some(more) => more.wrapping_add(1),
        None => 0,
    }
}

// Step 2 for a wait or a flag wait e.
fn serve(state: &mut State, e: u16, event: &Event) -> bool {
    let mut counts = [[0u16; 16]; 1025];
    let found = find(state, e, event, &mut counts);
    let k = needed(event, found.waits);
    if k == 0 || found.candidates < k {
        return false;
    }
    state.safe.raise(e, &kth_row(&counts, k))
}

// Both steps for event e.
fn raise_event(state: &mut State, e: u16) -> bool {
    let event = state.event(e);
    let followed = follow(state, e, &event);
    match event.kind {
        Kind::Wait | Kind::FlagWait => serve(state, e, &event) | followed,
        _ => followed,
    }
}

fn pass(state: &mut State, n: u16) -> bool {
    let mut rose = false;
    for e in 0..n {
        rose = raise_event(state, e) | rose;
    }
    rose
}

// The safe vectors of n events.
fn run(state: &mut State, n: u16, budget: u32) -> Passes {
    for made in 0..budget {
        if !pass(state, n) {
            return Passes {
                made: made + 1,
                settled: true,
            };
        }
    }
    Passes {
        made: budget,
        settled: false,
    }
}

// The numbers of a vector for the first tasks, as many as there is room for.
fn put_row(row: &Row, room: &mut [u16]) {
    for (number, value) in room.iter_mut().zip(row) {
        *number = *value;
    }
}

// The vectors of the events, one behind the other.
fn put_rows(rows: &[Row], r: &Reading, room: &mut [u16]) {
    let width = r.tasks.max(1) as usize;
    for (row, numbers) in rows
        .iter()
        .take(r.events as usize)
        .zip(room.chunks_exact_mut(width))
    {
        put_row(row, numbers);
    }
}

// Makes the passes, and leaves the vectors in the work numbers: the safe ones, and behind those the recorded
// ones.
pub(crate) fn fill(state: &mut State, r: &Reading, budget: u32, work: &mut [u16]) -> Passes {
    let n = r.events;
    let passes = run(state, n, budget);
    let share = n as usize * r.tasks as usize;
    if share <= work.len() {
        let (safe, recorded) = work.split_at_mut(share);
        put_rows(&state.safe.rows, r, safe);
        put_rows(&state.recorded.rows, r, recorded);
    }
    passes
}
