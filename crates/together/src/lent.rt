// What the functions of this crate are lent, with the facts that they rest on.

ghost use Rattle.model.specs.File.{events_of};
ghost use Rattle.model.specs.OneJob.{SameWork};
ghost use Rattle.work.specs.Ready.{recording_of};
ghost use Rattle.alike.specs.Alike.{Counterparts};

use model::MOST_EVENTS;
use passes::EventVectors;
use work::ReadyEvents;

// Two recordings of the same work.
#[derive(Clone, Copy)]
pub struct Job<'a, 'b> {
    pub first: ReadyEvents<'a>,
    pub second: ReadyEvents<'b>,
    pub ghost same: { SameWork (recording_of first) (recording_of second) },
}

// What an entry of the first recording is named and marked by: the second recording's events with their recorded vectors, and the
// event of the second that is kept for each of the first.
#[derive(Clone, Copy)]
pub struct Naming<'a, 'b, 'v> {
    pub first: ReadyEvents<'a>,
    pub second: EventVectors<'b, 'v>,
    pub kept: &'v [u16; MOST_EVENTS],
    pub ghost counterparts: { Counterparts (events_of first.records.now) (events_of second.records.now) kept.now },
}
