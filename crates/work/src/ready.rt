// A recording that is ready to be worked on, with the facts that the work rests on.

ghost use Rattle.model.specs.File.{events_of};
ghost use Rattle.events.specs.Kept.{Positions};
ghost use Rattle.work.specs.Lent.{Ready};

use model::Counts;

// The records, counts and level bytes of a recording that acceptance has passed, and the positions of its events.
#[derive(Clone, Copy)]
pub struct ReadyEvents<'a> {
    pub records: &'a [u8],
    pub counts: Counts,
    pub levels: &'a [u8],
    pub positions: &'a [u16],
    pub ghost ready: { Ready records.now counts },
    pub ghost placed: { Positions (events_of records.now) positions.now },
}
