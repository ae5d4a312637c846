// What the functions of this crate are lent, with the facts that they rest on.

ghost use Rattle.std.specs.Prelude.{◌≡◌};
ghost use Rattle.model.specs.File.{events_of};
ghost use Rattle.model.specs.Vectors.{at_or_before, ordered, unordered};
ghost use Rattle.passes.specs.Lent.{Fitting, Numbered, Placed, Prepared};

use events::{CHAINS, SOURCES};
use model::Counts;

// The events of the records, their positions, and numbers that are their vectors.
#[derive(Clone, Copy)]
pub struct EventVectors<'a, 'v> {
    pub records: &'a [u8],
    pub counts: Counts,
    pub positions: &'a [u16],
    pub numbers: &'v [u16],
    pub ghost placed: { Placed records.now counts positions.now },
    pub ghost fitting: { Fitting records.now counts numbers.now },
}

impl EventVectors<'_, '_> {
    ghost use Rattle.passes.specs.Lookups.{vectors_of};

    // Whether the vectors put event a at or before event b.
    pub fn at_or_before(&self, a: usize, b: usize) -> bool
        requires { Numbered self.now.records.now a × Numbered self.now.records.now b }
        ensures { result ≡ at_or_before (events_of self.now.records.now) (vectors_of self.now) a b }
    {
        let e = events::event_at(self.records, a);
        let tasks = self.counts.tasks as usize;
        self.positions[a] <= vectors::number(self.numbers, b, tasks, e.task as usize)
    }

    // Whether the vectors order event a before event b.
    pub fn ordered(&self, a: usize, b: usize) -> bool
        requires { Numbered self.now.records.now a × Numbered self.now.records.now b }
        ensures { result ≡ ordered (events_of self.now.records.now) (vectors_of self.now) a b }
    {
        if a == b {
            return false;
        }
        self.at_or_before(a, b)
    }

    // Whether the vectors order neither event before the other.
    pub fn unordered(&self, a: usize, b: usize) -> bool
        requires { Numbered self.now.records.now a × Numbered self.now.records.now b }
        ensures { result ≡ unordered (events_of self.now.records.now) (vectors_of self.now) a b }
    {
        !self.ordered(a, b) & !self.ordered(b, a)
    }
}

// What a run looks up: the records and level bytes of a recording, and their events' positions, sources and chains.
#[derive(Clone, Copy)]
pub struct Lookups<'a> {
    pub records: &'a [u8],
    pub counts: Counts,
    pub levels: &'a [u8],
    pub positions: &'a [u16],
    pub sources: &'a [u16; SOURCES],
    pub chains: &'a [u16; CHAINS],
    pub ghost prepared: { Prepared records.now counts positions.now sources.now chains.now },
}

impl<'a> Lookups<'a> {
    ghost use Rattle.passes.specs.Lookups.{Fits};

    // The events with these numbers for their vectors.
    pub fn vectors<'v>(&self, v: &'v [u16]) -> EventVectors<'a, 'v>
        requires { Fits self.now v.now }
        ensures records { result.records.now ≡ self.now.records.now }
        ensures counts { result.counts ≡ self.now.counts }
        ensures positions { result.positions.now ≡ self.now.positions.now }
        ensures numbers { result.numbers.now ≡ v.now }
    {
        EventVectors {
            records: self.records,
            counts: self.counts,
            positions: self.positions,
            numbers: v,
        }
    }
}
