// What the functions of this crate are lent, with the facts that they rest on.

ghost use Rattle.std.specs.Prelude.{◌≡◌, ◌≤◌};
ghost use Rattle.model.specs.Reading.{most_cells};
ghost use Rattle.passes.specs.Lent.{Fitting, Placed};
ghost use Rattle.pairs.specs.Chains.{Linked};

use events::CHAINS;
use model::Counts;
use passes::EventVectors;

// The events of the records, their positions, and numbers that are their safe and their recorded vectors.
#[derive(Clone, Copy)]
pub struct PairVectors<'a, 'v> {
    pub records: &'a [u8],
    pub counts: Counts,
    pub positions: &'a [u16],
    pub safe: &'v [u16],
    pub recorded: &'v [u16],
    pub ghost placed: { Placed records.now counts positions.now },
    pub ghost safe_fits: { Fitting records.now counts safe.now },
    pub ghost recorded_fits: { Fitting records.now counts recorded.now },
}

impl<'a, 'v> PairVectors<'a, 'v> {
    // The events with their safe vectors.
    pub fn by_safe(&self) -> EventVectors<'a, 'v>
        ensures records { result.records.now ≡ self.now.records.now }
        ensures counts { result.counts ≡ self.now.counts }
        ensures positions { result.positions.now ≡ self.now.positions.now }
        ensures numbers { result.numbers.now ≡ self.now.safe.now }
    {
        EventVectors {
            records: self.records,
            counts: self.counts,
            positions: self.positions,
            numbers: self.safe,
        }
    }

    // The events with their recorded vectors.
    pub fn by_recorded(&self) -> EventVectors<'a, 'v>
        ensures records { result.records.now ≡ self.now.records.now }
        ensures counts { result.counts ≡ self.now.counts }
        ensures positions { result.positions.now ≡ self.now.positions.now }
        ensures numbers { result.numbers.now ≡ self.now.recorded.now }
    {
        EventVectors {
            records: self.records,
            counts: self.counts,
            positions: self.positions,
            numbers: self.recorded,
        }
    }
}

// What the list is made along: an order of the events, and each cell's accesses in a chain of their places in it.
#[derive(Clone, Copy)]
pub struct Listing<'a, 'v, 'c> {
    pub vectors: PairVectors<'a, 'v>,
    pub order: &'c [u16],
    pub chain: &'c [u16; CHAINS],
    pub ghost linked: { Linked vectors.records.now order.now vectors.counts.cells chain.now },
    pub ghost few: { vectors.counts.cells ≤ most_cells },
}
