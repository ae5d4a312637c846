// Two recordings of one job held together: whether they are the same work, and then their one settled list. An entry names its
// events by task and position, since the records arrived in different orders, and its mark is sure when either recording makes it so.
#![tactic(auto)]

ghost use Rattle.std.specs.Prelude.{◌≡◌, [], ◌∷◌, ◌++◌, ◌+◌, ◌*◌, ◌≤◌, ◌<◌, ◌&&◌, ℕ, length, drop};
ghost use Rattle.std.proofs.lemmas.List.Edits.{sets};
ghost use Rattle.model.specs.Numbers.{flat_map};
ghost use Rattle.model.specs.File.{recording_by};
ghost use Rattle.model.specs.Pairs.{entry_at};
ghost use Rattle.model.specs.Analysing.{work_fits};
ghost use Rattle.model.specs.Together.{settled_in, joint_of, first_work_after, second_work_after, joint_list_after};
ghost use Rattle.passes.specs.Lent.{Numbered, vectors_in};
ghost use Rattle.together.specs.Lent.{Settled, PartsOf};
ghost use Rattle.together.specs.Naming.{entries_at, either_mark, OfFirst, NamedAll};
ghost use Rattle.work.specs.Ready.{recording_of, Room};
ghost use Rattle.together.specs.Named.{named_with};

use events::Parts;
use model::Refusal;
use work::ReadyEvents;

mod lent;

use lent::{Job, Naming};

const NAMED: usize = 5; // the numbers of an entry by name

impl Naming<'_, '_, '_> {
    // The mark of a pair a, b of the first recording that marks it m: the higher of m and the second recording's mark.
    fn either_mark(&self, a: usize, b: usize, m: u16) -> u16
        requires { Numbered self.now.first.records.now a × Numbered self.now.first.records.now b }
        ensures { result ≡ either_mark (recording_by self.now.second.records.now self.now.second.counts [])
            (vectors_in self.now.second.records.now self.now.second.counts self.now.second.numbers.now) self.now.kept.now a b m }
    {
        let x = self.kept[a] as usize;
        let y = self.kept[b] as usize;
        m.max(pairs::mark(&self.second, x, y))
    }

    // Writes entry i, now of three numbers, by name: task and position, twice, and the mark, sure where either recording makes it so.
    fn name_entry(&self, i: usize, list: &mut [u16])
        requires { OfFirst self.now.first.records.now (entry_at list.old i) × (5 * i + 5 ≤ length list.old) }
        ensures { list.new ≡ sets list.old (5 * i) (named_with self.now (entry_at list.old i)) }
    {
        let a = list[3 * i] as usize;
        let b = list[3 * i + 1] as usize;
        let mark = self.either_mark(a, b, list[3 * i + 2]);
        let v = events::event_at(self.first.records, a);
        let w = events::event_at(self.first.records, b);
        let here = self.first.positions;
        let named = [v.task as u16, here[a], w.task as u16, here[b], mark];
        let at = 5 * i;
        list[at..at + 5].copy_from_slice(&named);
    }

    // Names all entries in place, the last one first: an entry is written over numbers that are not read again.
    fn name_entries(&self, pairs: usize, list: &mut [u16])
        requires { ((i : ℕ) → i < pairs → OfFirst self.now.first.records.now (entry_at list.old i)) × (5 * pairs ≤ length list.old) }
        ensures { list.new ≡ flat_map (named_with self.now) (entries_at list.old pairs) ++ drop (5 * pairs) list.old }
    {
        for i in (0..pairs).rev() {
            self.name_entry(i, list);
        }
    }
}

// Fills the work numbers of a recording: its settled vectors, by the budget N × N + 1, then its recorded vectors.
fn settle(ready: &ReadyEvents, work: &mut [u16])
    requires { Room ready.now work.old }
    ensures { work.new ≡ settled_in (recording_of ready.now) work.old }
{
    let budget = work::budget_of(ready.records);
    ready.fill(budget, work);
}

impl Job<'_, '_> {
    // Whether each work memory has room for its own recording's vectors.
    fn works_fit(&self, first_work: &[u16], second_work: &[u16]) -> bool
        ensures { result ≡ (work_fits (recording_of self.now.first) first_work.now && work_fits (recording_of self.now.second) second_work.now) }
    {
        let first = work::work_fits(self.first.records, self.first.counts, first_work);
        let second = work::work_fits(self.second.records, self.second.counts, second_work);
        first & second
    }

    // Names the entries of the first recording's list, and gives each the mark of both recordings. `work` is the second's, filled.
    fn name_all(&self, work: &[u16], pairs: usize, list: &mut [u16])
        requires roomy { Room self.now.second work.now }
        requires by_index { ((i : ℕ) → i < pairs → OfFirst self.now.first.records.now (entry_at list.old i)) × (5 * pairs ≤ length list.old) }
        ensures { NamedAll self.now.first.records.now self.now.second.records.now self.now.second.counts work.now pairs list.old list.new }
    {
        let tasks = self.second.counts.tasks;
        let kept = alike::counterparts(self.first.records, self.second.records, tasks);
        let naming = Naming {
            first: self.first,
            second: self.second.recorded(work),
            kept: &kept,
        };
        naming.name_entries(pairs, list);
    }

    // Holds the two together: fills both work memories and makes the one list. The three are lent apart, as to `analyse_both`: its
    // signature stays, and a struct of them would be put together there and taken apart here.
    fn hold(
        &self,
        first_work: &mut [u16],
        second_work: &mut [u16],
        list: &mut [u16],
    ) -> Result<usize, Refusal>
        ensures { Settled (recording_of self.now.first) (recording_of self.now.second)
            first_work.old second_work.old list.old result first_work.new second_work.new list.new }
    {
        if !self.works_fit(first_work, second_work) {
            return Err(Refusal::Work);
        }
        settle(&self.first, first_work);
        settle(&self.second, second_work);
        match self.first.list_pairs(first_work, NAMED, list) {
            Ok(pairs) => {
                self.name_all(second_work, pairs, list);
                Ok(pairs)
            }
            Err(short) => Err(Refusal::List(short.pairs)),
        }
    }
}

// The parts of a file, where reading accepts it.
fn parts_of(file: &[u8]) -> Result<Parts<'_>, Refusal>
    ensures { PartsOf file.now result }
{
    let trailer = recording::read(file)?;
    Ok(Parts::of(file, trailer))
}

// Holds two recordings of one job together. Where both files are accepted and are the same work, each work memory is left as after
// analysing its own file with the budget N × N + 1, and the list with the entries of both: task and position, twice, and the mark.
// Answers the number of pairs. A refusal leaves all as it was, but 10 (list) leaves both work memories filled.
pub fn analyse_both(
    first: &[u8],
    second: &[u8],
    first_work: &mut [u16],
    second_work: &mut [u16],
    list: &mut [u16],
) -> Result<usize, Refusal>
    ensures value { result ≡ joint_of first.now second.now first_work.old second_work.old list.old }
    ensures first_work_after { first_work.new ≡ first_work_after first.now second.now first_work.old second_work.old }
    ensures second_work_after { second_work.new ≡ second_work_after first.now second.now first_work.old second_work.old }
    ensures list_after { list.new ≡ joint_list_after first.now second.now first_work.old second_work.old list.old }
{
    let a = parts_of(first)?;
    let b = parts_of(second)?;
    alike::work_alike(a, b)?;
    let here = events::positions(a.records);
    let there = events::positions(b.records);
    let job = Job {
        first: ReadyEvents {
            records: a.records,
            counts: a.counts,
            levels: a.levels,
            positions: &here,
        },
        second: ReadyEvents {
            records: b.records,
            counts: b.counts,
            levels: b.levels,
            positions: &there,
        },
    };
    job.hold(first_work, second_work, list)
}
