// A stretch of work before another: which of two stretches of a recording file is before the other.
#![tactic(auto)]

ghost use Rattle.std.specs.Prelude.{◌≡◌, ◌&&◌, ◌+◌, ◌*◌, ◌/◌, ◌<◌, eqb, length};
ghost use Rattle.model.specs.Refusals.{after};
ghost use Rattle.model.specs.Recording.{event_in, of_task};
ghost use Rattle.model.specs.File.{events_of};
ghost use Rattle.model.specs.Reading.{reading_of};
ghost use Rattle.model.specs.Vectors.{position};
ghost use Rattle.model.specs.Together.{at_position};
ghost use Rattle.model.specs.Analysing.{filled};
ghost use Rattle.events.specs.Kept.{Positions, Below};
ghost use Rattle.passes.specs.Lookups.{vectors_of};
ghost use Rattle.work.specs.Ready.{recording_of};
ghost use Rattle.stretches.specs.Stretches.{
  lead_number,
  is_stretch,
  overlap,
  two_stretches,
  stretch_check,
  compared_by,
  compared_of,
  work_after_comparing,
};
ghost use Rattle.stretches.specs.Lent.{ends_ordered, lead_by_ends};

use events::Parts;
use model::{Refusal, Trailer};
use passes::EventVectors;
use work::ReadyEvents;

// A stretch of work: a task, with a first and a last position.
#[derive(Clone, Copy)]
pub struct Stretch {
    pub task: u16,
    pub first: u16,
    pub last: u16,
}

// Which of two stretches is before the other.
#[derive(Clone, Copy)]
pub enum Lead {
    First,
    Second,
    Neither,
}

impl Lead {
    // The number of the answer: 1 first, 2 second, 3 neither. A method, as `Refusal::number` is.
    pub fn number(self) -> u8
        ensures { result ≡ lead_number self }
    {
        match self {
            Lead::First => 1,
            Lead::Second => 2,
            Lead::Neither => 3,
        }
    }
}

// The events of the records, and their positions.
#[derive(Clone, Copy)]
struct EventPositions<'a> {
    records: &'a [u8],
    positions: &'a [u16],
    ghost kept: { Positions (events_of records.now) positions.now },
}

impl EventPositions<'_> {
    // Whether event e is this task's, at this position.
    #[tactic(auto, using(events::proofs::Laws::events_length))]
    fn is_at(&self, e: usize, task: u16, at: u16) -> bool
        requires { 4 * e + 3 < length self.now.records.now }
        ensures { result ≡ (of_task task (event_in (events_of self.now.records.now) e) && eqb (position (events_of self.now.records.now) e) at) }
    {
        let v = events::event_at(self.records, e);
        (v.task as u16 == task) & (self.positions[e] == at)
    }

    // The event of this task at this position.
    #[tactic(auto, using(events::proofs::Laws::events_length, events::proofs::Laws::last_none, events::proofs::Laws::last_lower), unfolding(model::specs::Together::at_position))]
    fn at_position(&self, task: u16, at: u16) -> Option<usize>
        ensures { (result ≡ at_position (events_of self.now.records.now) task at) × Below (length self.now.records.now / 4) result }
    {
        let n = self.records.len() / 4;
        for i in (0..n).rev() {
            if self.is_at(i, task, at) {
                return Some(i);
            }
        }
        None
    }
}

// Whether s is a stretch of this recording. Its task has the last position exactly where an event is found there.
fn is_stretch(ready: &ReadyEvents, s: Stretch) -> bool
    ensures { result ≡ is_stretch (recording_of ready.now) s }
{
    let events = EventPositions {
        records: ready.records,
        positions: ready.positions,
    };
    let last = events.at_position(s.task, s.last);
    (s.task < ready.counts.tasks) & (1 <= s.first) & (s.first <= s.last) & last.is_some()
}

// Whether two stretches are of one task and have a position in common.
#[tactic(auto, unfolding(crate::specs::Stretches::overlap))]
fn overlap(one: Stretch, other: Stretch) -> bool
    ensures { result ≡ overlap one other }
{
    (one.task == other.task) & (one.first <= other.last) & (other.first <= one.last)
}

// Whether these are two stretches that do not overlap.
#[tactic(auto, unfolding(crate::specs::Stretches::two_stretches))]
fn two_stretches(ready: &ReadyEvents, one: Stretch, other: Stretch) -> bool
    ensures { result ≡ two_stretches (recording_of ready.now) one other }
{
    let a = is_stretch(ready, one);
    let b = is_stretch(ready, other);
    let c = overlap(one, other);
    a & b & !c
}

// Whether the vectors order the last event of the one stretch before the first of the other.
#[tactic(auto, unfolding(crate::specs::Lent::ends_ordered))]
fn ends_ordered(vectors: &EventVectors, one: Stretch, other: Stretch) -> bool
    ensures { result ≡ ends_ordered (events_of vectors.now.records.now) (vectors_of vectors.now) one other }
{
    let events = EventPositions {
        records: vectors.records,
        positions: vectors.positions,
    };
    let Some(last) = events.at_position(one.task, one.last) else {
        return false;
    };
    let Some(first) = events.at_position(other.task, other.first) else {
        return false;
    };
    vectors.ordered(last, first)
}

// First, second or neither, by the ends of the two stretches.
fn lead_by_ends(vectors: &EventVectors, one: Stretch, other: Stretch) -> Lead
    ensures { result ≡ lead_by_ends (events_of vectors.now.records.now) (vectors_of vectors.now) one other }
{
    if ends_ordered(vectors, one, other) {
        return Lead::First;
    }
    if ends_ordered(vectors, other, one) {
        return Lead::Second;
    }
    Lead::Neither
}

// Compares two stretches of a recording, with the checks of 17 and then 9.
#[tactic(auto, unfolding(crate::specs::Stretches::stretch_check))]
fn compare_ready(
    ready: &ReadyEvents,
    one: Stretch,
    other: Stretch,
    budget: u32,
    work: &mut [u16],
) -> Result<Lead, Refusal>
    ensures value { result ≡ compared_by (recording_of ready.now) one other budget (stretch_check (recording_of ready.now) one other work.old) }
    ensures work_after { work.new ≡ after (stretch_check (recording_of ready.now) one other work.old) (λ _. filled (recording_of ready.now) budget work.old) work.old }
{
    if !two_stretches(ready, one, other) {
        return Err(Refusal::Stretch);
    }
    if !work::work_fits(ready.records, ready.counts, work) {
        return Err(Refusal::Work);
    }
    ready.fill(budget, work);
    let safe = ready.safe(work);
    Ok(lead_by_ends(&safe, one, other))
}

// Compares two stretches of a file that reading accepts with this trailer.
#[tactic(auto, using(work::proofs::Accepted::levels_inside))]
fn compare_read(
    file: &[u8],
    trailer: Trailer,
    one: Stretch,
    other: Stretch,
    budget: u32,
    work: &mut [u16],
) -> Result<Lead, Refusal>
    requires { reading_of file.now ≡ Ok trailer }
    ensures value { result ≡ compared_of file.now one other budget work.old }
    ensures work_after { work.new ≡ work_after_comparing file.now one other budget work.old }
{
    let parts = Parts::of(file, trailer);
    let positions = events::positions(parts.records);
    let ready = ReadyEvents {
        records: parts.records,
        counts: parts.counts,
        levels: parts.levels,
        positions: &positions,
    };
    compare_ready(&ready, one, other, budget, work)
}

// Tells which of two stretches of a recording file is before the other, with a budget of passes. The work numbers are left as after
// analysing; a refusal leaves them as they were.
pub fn compare(
    file: &[u8],
    one: Stretch,
    other: Stretch,
    budget: u32,
    work: &mut [u16],
) -> Result<Lead, Refusal>
    ensures value { result ≡ compared_of file.now one other budget work.old }
    ensures work_after { work.new ≡ work_after_comparing file.now one other budget work.old }
{
    let trailer = recording::read(file)?;
    compare_read(file, trailer, one, other, budget, work)
}
