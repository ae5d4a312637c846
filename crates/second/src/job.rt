// Two recordings of one job held together.
ghost use Rattle.second.specs.Refusals.{RefusesUpTo};

use crate::Fault;
use crate::file::Recording;
use crate::listing::Pairs;
use crate::memory::at;
use crate::state::{EVENTS, Event};
use crate::twin::Twin;
use crate::vectors::fill;

// A recording, and its work numbers.
#[derive(Drop)]
pub(crate) struct Side<'a> {
    pub(crate) file: &'a [u8],
    pub(crate) work: &'a mut [u16],
}

// The counts, the start counts or the post counts differ. Without start bytes the start counts are 0.
fn counts_differ(one: &Recording<'_>, other: &Recording<'_>) -> bool {
    let r = one.reading;
    let s = other.reading;
    let counts = r.tasks != s.tasks || r.semaphores != s.semaphores;
    let others = r.flags != s.flags || r.cells != s.cells;
    let starts = (0..64).any(|i| at(one.parts.starts, i) != at(other.parts.starts, i));
    let posts = one.parts.posts != other.parts.posts;
    counts || others || starts || posts
}

// Two events have the same kind and object, or there are none.
fn alike(one: Option<Event>, other: Option<Event>) -> bool {
    match (one, other) {
        (Some(x), Some(y)) => x.kind == y.kind && x.object == y.object,
        (None, None) => true,
        _ => false,
    }
}

// The first position of a task at which kinds or objects differ, or only one recording has an event.
fn differing(one: &Twin, other: &Twin, task: u16) -> Option<u16> {
    for position in 1..=EVENTS as u16 {
        if !alike(one.event(task, position), other.event(task, position)) {
            return Some(position);
        }
    }
    None
}

// 14 with the lowest task whose records differ, and the first position.
fn check_work(one: &Twin, other: &Twin, tasks: u16) -> Result<(), Fault>
    ensures { RefusesUpTo 16 result }
{
    for task in 0..tasks {
        if let Some(position) = differing(one, other, task) {
            return Err(Fault::Differ { task, position });
        }
    }
    Ok(())
}

// Fills the work numbers of both recordings, and makes their one list; answers how many pairs it has. Or the
// refusal of the first file, of the second, or else 14, or 9 where work numbers lack, or 10.
pub(crate) fn hold(one: Side<'_>, other: Side<'_>, list: &mut [u16]) -> Result<u32, Fault>
    ensures { RefusesUpTo 16 result }
{
    let mut first = Twin::EMPTY;
    let mut second = Twin::EMPTY;
    let ours = first.load(one.file)?;
    let theirs = second.load(other.file)?;
    if counts_differ(&ours, &theirs) {
        return Err(Fault::Differ {
            task: 0,
            position: 0,
        });
    }
    let r = ours.reading;
    let s = theirs.reading;
    check_work(&first, &second, r.tasks)?;
    if one.work.len() < r.work_needed() || other.work.len() < s.work_needed() {
        return Err(Fault::Work);
    }
    fill(&mut first.state, &r, u32::MAX, one.work);
    fill(&mut second.state, &s, u32::MAX, other.work);
    let twin = Some(&second);
    let pairs = Pairs {
        state: &first.state,
        twin,
    };
    pairs.list(list)
}
