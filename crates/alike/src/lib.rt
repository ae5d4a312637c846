// Whether two recordings are the same work, and which event of the second stands for which of the first.
#![tactic(auto)]

ghost use Rattle.std.specs.Prelude.{◌≡◌, ℕ, ◌*◌, ◌≤◌, ◌<◌, length};
ghost use Rattle.model.specs.File.{events_of};
ghost use Rattle.model.specs.Reading.{most_tasks, most_events};
ghost use Rattle.model.specs.Together.{same_counts, same_levels, own_records, same_record, records_alike, tasks_alike, work_alike};
ghost use Rattle.events.specs.Kept.{Tasked};
ghost use Rattle.events.specs.Parts.{recording_in};
ghost use Rattle.alike.specs.Alike.{same_resources, TaskChains, Counterparts};

use events::{CHAINS, Parts};
use model::{Counts, Event, MOST_EVENTS, Refusal};

// Whether the counts are the same; the editions may differ.
#[tactic(auto, unfolding(model::specs::Together::same_counts))]
fn same_counts(c: Counts, d: Counts) -> bool
    ensures { result ≡ same_counts c d }
{
    let first = (c.tasks, events::semaphores(c), events::flags(c), c.cells);
    let second = (d.tasks, events::semaphores(d), events::flags(d), d.cells);
    first == second
}

// Whether the first n level bytes, start bytes or post bytes, are the same. A loop: of `(0..n).all(..)` the proof didn't close.
#[tactic(auto, unfolding(model::specs::Together::same_levels))]
fn same_levels(first: &[u8], second: &[u8], n: u16) -> bool
    ensures { result ≡ same_levels first.now second.now n }
{
    for i in 0..n {
        if events::level_at(first, i) != events::level_at(second, i) {
            return false;
        }
    }
    true
}

// Whether two recordings have the same counts, start counts and post counts.
#[tactic(auto, unfolding(crate::specs::Alike::same_resources))]
fn same_resources(first: Parts, second: Parts) -> bool
    ensures { result ≡ same_resources first.entry.counts first.entry.levels.now second.entry.counts second.entry.levels.now }
{
    let counts = same_counts(first.counts, second.counts);
    let starts = same_levels(
        events::start_bytes(first.levels, first.counts),
        events::start_bytes(second.levels, second.counts),
        events::semaphores(first.counts),
    );
    let posts = same_levels(
        events::post_bytes(first.levels, first.counts),
        events::post_bytes(second.levels, second.counts),
        events::flags(first.counts),
    );
    counts & starts & posts
}

// Whether the records have the same kind and object.
fn same_record(v: Event, w: Event) -> bool
    ensures { result ≡ same_record v w }
{
    (v.kind, v.object) == (w.kind, w.object)
}

// The records of one task, each along its chain: 14 at the first position where they differ.
fn records_alike(
    first: &[u8],
    second: &[u8],
    first_chain: &[u16; CHAINS],
    second_chain: &[u16; CHAINS],
    task: u16,
) -> Result<(), Refusal>
    requires { TaskChains first.now first_chain.now × TaskChains second.now second_chain.now × (task < 256) }
    ensures { result ≡ records_alike task 1 (own_records (events_of first.now) task)
        (own_records (events_of second.now) task) }
{
    let mut position: u16 = 1;
    let mut others = events::task_events(second, second_chain, task);
    for a in events::task_events(first, first_chain, task) {
        let Some(b) = others.next() else {
            return Err(Refusal::Differ { task, position });
        };
        if !same_record(events::event_at(first, a), events::event_at(second, b)) {
            return Err(Refusal::Differ { task, position });
        }
        position += 1;
    }
    match others.next() {
        Some(_) => Err(Refusal::Differ { task, position }),
        None => Ok(()),
    }
}

// The records of the first `tasks` tasks, the lowest first.
fn tasks_alike(first: &[u8], second: &[u8], tasks: u16) -> Result<(), Refusal>
    requires { (length first.now ≤ 4 * most_events) × (length second.now ≤ 4 * most_events) × (tasks ≤ most_tasks) }
    ensures { result ≡ tasks_alike (events_of first.now) (events_of second.now) tasks }
{
    let first_chain = events::gather_tasks(first);
    let second_chain = events::gather_tasks(second);
    for task in 0..tasks {
        records_alike(first, second, &first_chain, &second_chain, task)?;
    }
    Ok(())
}

// Whether two recordings are the same work: 14 where they differ.
#[tactic(auto, using(crate::proofs::Laws::resources_first))]
pub fn work_alike(first: Parts, second: Parts) -> Result<(), Refusal>
    requires { (length first.records.now ≤ 4 * most_events) × (length second.records.now ≤ 4 * most_events) × (first.counts.tasks ≤ most_tasks) }
    ensures { result ≡ work_alike (recording_in first.entry) (recording_in second.entry) }
{
    if !same_resources(first, second) {
        return Err(Refusal::Differ {
            task: 0,
            position: 0,
        });
    }
    tasks_alike(first.records, second.records, first.counts.tasks)
}

// For each event of the first recording the event of the second with the same task and position: the two stand at the same
// place in the task orders.
pub fn counterparts(first: &[u8], second: &[u8], tasks: u16) -> [u16; MOST_EVENTS]
    requires first_len_bound { (length first.now ≤ 4 * most_events) × (length second.now ≤ 4 * most_events) × (tasks ≤ most_tasks) }
    requires tasked { Tasked (events_of first.now) tasks × Tasked (events_of second.now) tasks }
    requires by_index { (t : ℕ) → own_records (events_of first.now) t ≡ own_records (events_of second.now) t }
    ensures { Counterparts (events_of first.now) (events_of second.now) result }
{
    let here = events::task_order(first, tasks);
    let there = events::task_order(second, tasks);
    let n = first.len() / 4;
    let mut kept = [0u16; MOST_EVENTS];
    for i in 0..n {
        kept[here[i] as usize] = there[i];
    }
    kept
}
