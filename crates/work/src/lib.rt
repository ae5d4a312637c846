// The lent work memory of a recording: its size, what fills it (the safe vectors of a run, then the recorded ones), the budget of
// a run that settles, and what is read off the memory once it is filled. A crate of its own, since more than one interface crate
// fills such a memory, and ReadyEvents holds what those have shown.
#![tactic(auto)]

ghost use Rattle.std.specs.Prelude.{◌≡◌, [], ◌≤◌};
ghost use Rattle.model.specs.Refusals.{after};
ghost use Rattle.model.specs.File.{recording_by};
ghost use Rattle.model.specs.Passes.{passes_made, is_settled};
ghost use Rattle.model.specs.Pairs.{entries};
ghost use Rattle.model.specs.Analysing.{work_fits, filled};
ghost use Rattle.model.specs.Question.{relation_by, two_events, asked_check};
ghost use Rattle.passes.specs.Lent.{vectors_in, Fitting, Numbered};
ghost use Rattle.passes.specs.Lookups.{vectors_of};
ghost use Rattle.pairs.specs.Lent.{Width, WrittenList};
ghost use Rattle.pairs.specs.Listing.{fits, pairs_of};
ghost use Rattle.work.specs.Lent.{Ready, numbers, Roomy, safe_in, recorded_in, budget_in};
ghost use Rattle.work.specs.Ready.{recording_of, Room, safe_of, recorded_of, by_work};

use model::{Counts, MOST_EVENTS, Refusal, Relation};
use pairs::{NoRoom, PairVectors};
use passes::{EventVectors, Lookups, Outcome};

mod ready;

pub use ready::ReadyEvents;

// N × N + 1: enough for the passes to settle.
#[tactic(auto, unfolding(crate::specs::Lent::budget_in))]
pub fn budget_of(records: &[u8]) -> u32
    ensures { result ≡ budget_in records.now }
{
    let n = records.len() / 4;
    if n <= MOST_EVENTS {
        let m = n as u32;
        return m * m + 1;
    }
    0
}

// How many numbers the vectors of these records have: N × T.
fn numbers(records: &[u8], counts: Counts) -> usize
    requires { Ready records.now counts }
    ensures { (result ≡ numbers records.now counts) × (result ≤ 16384) }
{
    let tasks = counts.tasks as usize;
    records.len() / 4 * tasks
}

// Whether the work numbers have room for the safe and the recorded vectors.
pub fn work_fits(records: &[u8], counts: Counts, work: &[u16]) -> bool
    requires { Ready records.now counts }
    ensures { result ≡ work_fits (recording_by records.now counts []) work.now }
{
    2 * numbers(records, counts) <= work.len()
}

// The safe vectors in the work numbers, as numbers. Two functions beside `pairs`, since docs/changes names them and neither asks for
// positions.
pub fn safe_part<'a>(records: &[u8], counts: Counts, work: &'a [u16]) -> &'a [u16]
    requires { Ready records.now counts × Roomy records.now counts work.now }
    ensures { (vectors_in records.now counts result.now ≡ safe_in records.now counts work.now) × Fitting records.now counts result.now }
{
    let half = numbers(records, counts);
    &work[..half]
}

// The recorded vectors behind them.
pub fn recorded_part<'a>(records: &[u8], counts: Counts, work: &'a [u16]) -> &'a [u16]
    requires { Ready records.now counts × Roomy records.now counts work.now }
    ensures { (vectors_in records.now counts result.now ≡ recorded_in records.now counts work.now) × Fitting records.now counts result.now }
{
    let half = numbers(records, counts);
    let stop = 2 * half;
    &work[half..stop]
}

impl<'a> ReadyEvents<'a> {
    // Whether a and b are two different events of the recording.
    fn two_events(&self, a: usize, b: usize) -> bool
        ensures { result ≡ two_events (recording_of self.now) a b }
    {
        let n = self.records.len() / 4;
        (a < n) & (b < n) & (a != b)
    }

    // Fills the work numbers: the safe vectors of a run with this budget, then the recorded vectors.
    pub fn fill(&self, budget: u32, work: &mut [u16]) -> Outcome
        requires { Room self.now work.old }
        ensures passes_value { (result.passes ≡ passes_made (recording_of self.now) budget) × (result.settled ≡ is_settled (recording_of self.now) budget) }
        ensures work_after { work.new ≡ filled (recording_of self.now) budget work.old }
    {
        let half = numbers(self.records, self.counts);
        let sources = events::sources(self.records);
        let chains = events::gather(self.records);
        let look = Lookups {
            records: self.records,
            counts: self.counts,
            levels: self.levels,
            positions: self.positions,
            sources: &sources,
            chains: &chains,
        };
        let made = look.run(budget, &mut work[..half]);
        recorded::record(&look, &mut work[half..]);
        made
    }

    // The checks of a question about events a and b, 11 and then 9. Where they pass, the work numbers are filled.
    #[tactic(auto, unfolding(model::specs::Question::asked_check))]
    pub fn fill_asked(
        &self,
        a: usize,
        b: usize,
        budget: u32,
        work: &mut [u16],
    ) -> Result<(), Refusal>
        ensures value { result ≡ asked_check (recording_of self.now) a b work.old }
        ensures work_after { work.new ≡ after result (λ _. filled (recording_of self.now) budget work.old) work.old }
    {
        if !self.two_events(a, b) {
            return Err(Refusal::Event);
        }
        if !work_fits(self.records, self.counts, work) {
            return Err(Refusal::Work);
        }
        self.fill(budget, work);
        Ok(())
    }

    // The events with their safe vectors, first in the work numbers, and their recorded ones behind them.
    pub fn pairs<'v>(&self, work: &'v [u16]) -> PairVectors<'a, 'v>
        requires { Room self.now work.now }
        ensures records { result.records.now ≡ self.now.records.now }
        ensures counts { result.counts ≡ self.now.counts }
        ensures positions { result.positions.now ≡ self.now.positions.now }
        ensures safe { vectors_in result.records.now result.counts result.safe.now ≡ safe_of self.now work.now }
        ensures recorded { vectors_in result.records.now result.counts result.recorded.now ≡ recorded_of self.now work.now }
    {
        PairVectors {
            records: self.records,
            counts: self.counts,
            positions: self.positions,
            safe: safe_part(self.records, self.counts, work),
            recorded: recorded_part(self.records, self.counts, work),
        }
    }

    // The events with the safe vectors in the work numbers.
    pub fn safe<'v>(&self, work: &'v [u16]) -> EventVectors<'a, 'v>
        requires { Room self.now work.now }
        ensures records { result.records.now ≡ self.now.records.now }
        ensures counts { result.counts ≡ self.now.counts }
        ensures positions { result.positions.now ≡ self.now.positions.now }
        ensures vectors { vectors_of result ≡ safe_of self.now work.now }
    {
        let vectors = self.pairs(work);
        vectors.by_safe()
    }

    // The events with the recorded vectors in the work numbers.
    pub fn recorded<'v>(&self, work: &'v [u16]) -> EventVectors<'a, 'v>
        requires { Room self.now work.now }
        ensures records { result.records.now ≡ self.now.records.now }
        ensures counts { result.counts ≡ self.now.counts }
        ensures positions { result.positions.now ≡ self.now.positions.now }
        ensures vectors { vectors_of result ≡ recorded_of self.now work.now }
    {
        let vectors = self.pairs(work);
        vectors.by_recorded()
    }

    // Lists the race pairs by the vectors in the work numbers, where the list has room for `width` numbers an entry.
    pub fn list_pairs(&self, work: &[u16], width: usize, list: &mut [u16]) -> Result<usize, NoRoom>
        requires { Room self.now work.now × Width width }
        ensures { WrittenList width (by_work entries self.now work.now) list.old list.new (fits result) (pairs_of result) }
    {
        let vectors = self.pairs(work);
        vectors.list(width, list)
    }

    // How events a and b stand to each other by the vectors in the work numbers.
    pub fn relate(&self, work: &[u16], a: usize, b: usize) -> Relation
        requires { Room self.now work.now × Numbered self.now.records.now a × Numbered self.now.records.now b }
        ensures { result ≡ by_work relation_by self.now work.now a b }
    {
        let vectors = self.pairs(work);
        vectors.relation(a, b)
    }
}
