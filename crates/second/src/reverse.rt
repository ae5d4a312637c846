// An order that shows a pair reversed. What the recorded run puts at or before an event is found without
// vectors: the event is marked, and going back from it to record 0 so is each event that a marked one
// follows directly, and the flag of a marked flag wait with the posts that open it.
ghost use Rattle.second.specs.Refusals.{RefusesUpTo};

use crate::Fault;
use crate::file::Recording;
use crate::memory::{at, put};
use crate::state::{State, WITH_FLAGS};

// Which events and flags have a mark.
type Marks = [bool; WITH_FLAGS];

// Marks a link's event or flag, if any.
fn mark(marks: &mut Marks, link: Option<u16>) {
    if let Some(x) = link {
        put(marks, x as usize, true);
    }
}

// Marks event e where it opens a flag that is marked; and what e follows directly, where e is marked.
fn mark_event(state: &State, e: u16, marks: &mut Marks) {
    let event = state.event(e);
    let opens = event.opens.is_some_and(|flag| at(marks, flag as usize));
    if opens || at(marks, e as usize) {
        mark(marks, Some(e));
        mark(marks, event.before);
        mark(marks, event.follows);
    }
}

// Event x and all that it follows.
fn mark_back(state: &State, x: u16) -> Marks {
    let mut marks = [false; WITH_FLAGS];
    mark(&mut marks, Some(x));
    for e in (0..=x).rev() {
        mark_event(state, e, &mut marks);
    }
    marks
}

// Event b follows event a.
fn follows(state: &State, a: u16, b: u16) -> bool {
    at(&mark_back(state, b), a as usize)
}

// The records turned: those with a mark, then the others, in file order.
fn put_turned(records: &[u8], marks: &Marks, out: &mut [u8]) {
    let (records, _) = records.as_chunks::<4>();
    let (slots, _) = out.as_chunks_mut::<4>();
    let marked = records.iter().zip(marks).filter(|(_, m)| **m);
    let others = records.iter().zip(marks).filter(|(_, m)| !**m);
    for (slot, (record, _)) in slots.iter_mut().zip(marked.chain(others)) {
        *slot = *record;
    }
}

// Writes a recording with event x brought before y, and answers its length: but for 15, where the recorded
// run orders the two, and 12.
pub(crate) fn write_forward(
    recording: &Recording<'_>,
    state: &State,
    x: u16,
    y: u16,
    out: &mut [u8],
) -> Result<usize, Fault>
    ensures { RefusesUpTo 16 result }
{
    if follows(state, x, y) || follows(state, y, x) {
        return Err(Fault::Unsure);
    }
    let length = recording.length();
    if out.len() < length {
        return Err(Fault::Out);
    }
    recording.put(out);
    put_turned(recording.parts.records, &mark_back(state, x), out);
    Ok(length)
}
