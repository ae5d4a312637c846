// A walk over the records of a file.
#![tactic(auto)]

ghost use Rattle.std.specs.Prelude.{◌≡◌, drop};
ghost use Rattle.std.specs.Iterator.{YieldsFirst, item_count};
ghost use Rattle.model.specs.File.{events_of};
ghost use Rattle.model.specs.Reading.{records_of};
ghost use Rattle.model.specs.Walking.{step_at};

use model::{Event, Step};

// A step of a walk: record `next` of the records' part, or the end.
#[tactic(auto, using(events::proofs::Laws::event_at_lem), unfolding(model::specs::Walking::step_at))]
pub fn step_at(records: &[u8], next: usize) -> Step
    ensures { result ≡ step_at records.now next }
{
    if next < records.len() / 4 {
        let v = events::event_at(records, next);
        return Step {
            item: Some(v),
            next: next + 1,
        };
    }
    Step { item: None, next }
}

// A walk: the records' part of a file, and the number of the next record.
#[derive(Clone, Copy)]
pub struct Walk<'a> {
    pub records: &'a [u8],
    pub next: usize,
}

impl<'a> Walk<'a> {
    // A walk over the records of a file, from the first. Over a refused file it yields none.
    pub fn over(file: &'a [u8]) -> Walk<'a>
        ensures { (result.records.now ≡ records_of file.now) × (result.next ≡ 0) }
    {
        let records = recording::records(file);
        Walk { records, next: 0 }
    }

    // Yields the next record and moves on, or yields the end and stays.
    pub fn next(&mut self) -> Option<Event>
        ensures { (result ≡ (step_at self.old.records.now self.old.next).item)
            × (self.new.records ≡ self.old.records)
            × (self.new.next ≡ (step_at self.old.records.now self.old.next).next) }
    {
        let s = step_at(self.records, self.next);
        self.next = s.next;
        s.item
    }
}

// So a walk can stand in a `for`: what is left of it are the records from the next one on.
impl Iterator for Walk<'_> {
    type Item = Event;

    ghost next_gives = { YieldsFirst (λ w. drop w.next (events_of w.records.now)) };

    ghost remaining = { item_count (λ w. drop w.next (events_of w.records.now)) };

    fn next(&mut self) -> Option<Event> {
        self.next()
    }
}
