// Passes and safe vectors over record bytes and lent work numbers. What a call looks up of the records (positions, sources,
// chains) is lent, and a pass raises only the events that read a vector that has changed.
#![tactic(auto)]

ghost use Rattle.std.specs.Prelude.{◌+◌, ◌*◌, ◌/◌, ◌%◌, ◌≤◌, ◌<◌, ◌≡◌, [], ◌++◌, length, drop};
ghost use Rattle.std.proofs.lemmas.List.Edits.{sets};
ghost use Rattle.model.specs.Numbers.{found};
ghost use Rattle.model.specs.Recording.{event_in};
ghost use Rattle.model.specs.File.{events_of, recording_by};
ghost use Rattle.model.specs.Vectors.{flat, start};
ghost use Rattle.model.specs.Passes.{step_one, k_of, pass, run};
ghost use Rattle.model.specs.Reading.{most_semaphores, most_events};
ghost use Rattle.vectors.specs.Rows.{Rose, Zeros};
ghost use Rattle.events.specs.Kept.{source_of, Sources};
ghost use Rattle.events.specs.Chains.{slots, slot_of};
ghost use Rattle.passes.specs.Lent.{Becomes, Fitting, Numbered, Records, Inside, raised_found};
ghost use Rattle.passes.specs.Lookups.{recording_of, vectors_over, Fits, Has};
ghost use Rattle.passes.specs.Stamps.{stamps, served_at, still, touched, Known, Timed};
ghost use Rattle.passes.specs.Steps.{first_row, taken, candidates_on, waited, step_two, raised_event};

use events::SOURCES;
use model::{Counts, Event, FLAG_WAIT, MOST_EVENTS, POST, SIGNAL, WAIT};

mod lent;

pub use lent::{EventVectors, Lookups};

// How many passes were made, and whether the last one was quiet.
#[derive(Clone, Copy)]
pub struct Outcome {
    pub passes: u32,
    pub settled: bool,
}

// Raises vector e to that of a found event. Answers whether any number rose.
pub fn raise_found(v: &mut [u16], e: usize, tasks: usize, from: Option<usize>) -> bool
    requires { (e * tasks + tasks ≤ length v.old) × Inside tasks (length v.old) from }
    ensures v_after { v.new ≡ raised_found tasks v.old e from }
    ensures rose { Rose v.old v.new result }
{
    match from {
        Some(s) => vectors::raise_row(v, e, s, tasks),
        None => false,
    }
}

// Raises vector e to that of the event kept at place i of the sources. Answers whether any number rose.
fn raise_source(
    records: &[u8],
    counts: Counts,
    sources: &[u16; SOURCES],
    i: usize,
    e: usize,
    v: &mut [u16],
) -> bool
    requires records { Records records.now counts × Fitting records.now counts v.old × Numbered records.now e × Sources (events_of records.now) sources.now }
    requires i_bound { i < 3 * length (events_of records.now) }
    ensures becomes { Becomes (λ E X. taken counts X (found (source_of E.events (i / 3) (i % 3))) e) records.now counts [] v.old v.new }
    ensures rose { Rose v.old v.new result }
{
    let from = events::found_below(records.len() / 4, sources[i]);
    raise_found(v, e, counts.tasks as usize, from)
}

// Step 1 for event e: its sources, one after another. Answers whether any number rose. A function by itself, since it asks less
// than `Lookups` holds: no positions and no chains.
pub fn step_one(
    records: &[u8],
    counts: Counts,
    sources: &[u16; SOURCES],
    e: usize,
    v: &mut [u16],
) -> bool
    requires { Records records.now counts × Fitting records.now counts v.old × Numbered records.now e × Sources (events_of records.now) sources.now }
    ensures becomes { Becomes (λ E X. step_one E X e) records.now counts [] v.old v.new }
    ensures rose { Rose v.old v.new result }
{
    let x = raise_source(records, counts, sources, 3 * e, e, v);
    let y = raise_source(records, counts, sources, 3 * e + 1, e, v);
    let z = raise_source(records, counts, sources, 3 * e + 2, e, v);
    x | y | z
}

// A stamp for each event, when its vector last changed; one for no event; and one for each slot of the chains, when a vector
// of its events last changed.
const STAMPS: usize = 1218;

const NO_EVENT: usize = MOST_EVENTS;

const SLOT_STAMPS: usize = 1025;

// What an event's turn in one pass is before its turn in the next.
const PASS: u64 = 1024;

// The stamp that tells when a signal or post that serves the event v last changed; for another event that of no event.
fn served_at(v: Event) -> usize
    ensures { (result ≡ served_at v) × (result < stamps) }
{
    if v.kind == WAIT {
        return SLOT_STAMPS + (events::slot_of(SIGNAL, v.object) as usize);
    }
    if v.kind == FLAG_WAIT {
        return SLOT_STAMPS + (events::slot_of(POST, v.object) as usize);
    }
    NO_EVENT
}

impl Lookups<'_> {
    // k of a wait e on semaphore s: 1 plus the waits on s ordered before e, lowered by the start count of s; 0 where that is 0
    // or less.
    fn needed(&self, v: &[u16], e: usize, s: u16) -> u16
        requires { Fits self.now v.now × Has self.now e × (s < most_semaphores) }
        ensures { result ≡ k_of (recording_of self.now) (vectors_over self.now v.now) e s }
    {
        let vectors = self.vectors(v);
        let mut k: u16 = 1;
        for w in events::events_on(self.records, self.chains, WAIT, s) {
            if vectors.ordered(w, e) {
                k += 1;
            }
        }
        let start = events::start_of(self.levels, self.counts, s);
        if k <= start {
            return 0;
        }
        k - start
    }

    // Writes the candidates of a wait e on object x, which events of this kind serve. Answers how many they are.
    fn candidates(&self, v: &[u16], e: usize, kind: u8, x: u16, out: &mut [u16]) -> usize
        requires e_bound { Fits self.now v.now × Has self.now e }
        requires kind_bound { (slot_of kind x < slots) × (most_events ≤ length out.old) }
        ensures value { result ≡ length (candidates_on (events_of self.now.records.now) (vectors_over self.now v.now) e kind x) }
        ensures out_after { out.new ≡ candidates_on (events_of self.now.records.now) (vectors_over self.now v.now) e kind x
            ++ drop result out.old }
    {
        let vectors = self.vectors(v);
        let mut c = 0;
        for a in events::events_on(self.records, self.chains, kind, x) {
            if !vectors.ordered(e, a) {
                out[c] = a as u16;
                c += 1;
            }
        }
        c
    }

    // Raises the vector of e, a wait of either kind on object x, which events of this kind serve, to the k-th least numbers of
    // its candidates.
    fn raise_wait(&self, e: usize, kind: u8, x: u16, k: u16, v: &mut [u16]) -> bool
        requires { Fits self.now v.old × Has self.now e × (slot_of kind x < slots) }
        ensures becomes { vectors_over self.now v.new ≡ waited self.now.counts (events_of self.now.records.now) (vectors_over self.now v.old) e kind x k }
        ensures rose { Rose v.old v.new result }
    {
        // A buffer and a count: an ArrayVec, tried, makes a first pass 1 to 2 % slower.
        let mut found = [0u16; MOST_EVENTS];
        let c = self.candidates(v, e, kind, x, &mut found);
        let tasks = self.counts.tasks as usize;
        vectors::raise_to_kth(v, e, tasks, &found[..c], k)
    }

    // Step 2 for event e: signals serve a wait, and posts, as many as its flag's post count, a flag wait. Answers whether any
    // number rose.
    fn step_two(&self, e: usize, v: &mut [u16]) -> bool
        requires { Fits self.now v.old × Has self.now e }
        ensures becomes { vectors_over self.now v.new ≡ step_two (recording_of self.now) (vectors_over self.now v.old) e }
        ensures rose { Rose v.old v.new result }
    {
        let w = events::event_at(self.records, e);
        if w.kind == WAIT {
            let k = self.needed(v, e, w.object);
            return self.raise_wait(e, SIGNAL, w.object, k, v);
        }
        if w.kind == FLAG_WAIT {
            let k = events::post_of(self.levels, self.counts, w.object);
            return self.raise_wait(e, POST, w.object, k, v);
        }
        false
    }

    // Raises event e by both steps. Answers whether any number rose.
    fn raise_event(&self, e: usize, v: &mut [u16]) -> bool
        requires { Fits self.now v.old × Has self.now e }
        ensures becomes { vectors_over self.now v.new ≡ raised_event (recording_of self.now) (vectors_over self.now v.old) e }
        ensures rose { Rose v.old v.new result }
    {
        let x = step_one(self.records, self.counts, self.sources, e, v);
        let y = self.step_two(e, v);
        x | y
    }

    // Whether nothing that the raising of event e reads has changed from the time `since` on.
    fn still(&self, when: &[u64; STAMPS], e: usize, since: u64) -> bool
        requires { Has self.now e }
        ensures { result ≡ still (events_of self.now.records.now) self.now.sources.now when.now e since }
    {
        let before = self.sources[3 * e] as usize;
        let fork = self.sources[3 * e + 1] as usize;
        let last = self.sources[3 * e + 2] as usize;
        let served = served_at(events::event_at(self.records, e));
        (when[e] < since)
            & (when[before] < since)
            & (when[fork] < since)
            & (when[last] < since)
            & (when[served] < since)
    }

    // Notes that the vector of event e changed at this time.
    fn touch(&self, e: usize, time: u64, when: &mut [u64; STAMPS])
        requires { Has self.now e }
        ensures { when.new ≡ touched (event_in (events_of self.now.records.now) e) e time when.old }
    {
        let v = events::event_at(self.records, e);
        when[e] = time;
        when[SLOT_STAMPS + (events::slot_of(v.kind, v.object) as usize)] = time;
    }

    // The turn of event e in the pass that begins at `base`. Where nothing that its raising reads has changed since its last turn,
    // it is left as it is. Answers whether any number rose.
    fn turn(&self, base: u64, e: usize, when: &mut [u64; STAMPS], v: &mut [u16]) -> bool
        requires e_bound { Fits self.now v.old × Has self.now e }
        requires timed { Timed base × Known (recording_of self.now) (vectors_over self.now v.old) self.now.sources.now when.old base e }
        ensures becomes { vectors_over self.now v.new ≡ raised_event (recording_of self.now) (vectors_over self.now v.old) e }
        ensures rose { Rose v.old v.new result }
        ensures known_in { Known (recording_of self.now) (vectors_over self.now v.new) self.now.sources.now when.new base (e + 1) }
    {
        let time = base + (e as u64);
        if self.still(when, e, time - PASS) {
            return false;
        }
        let rose = self.raise_event(e, v);
        if rose {
            self.touch(e, time, when);
        }
        rose
    }

    // One pass, which begins at `base`. Answers whether any number rose.
    fn pass(&self, base: u64, when: &mut [u64; STAMPS], v: &mut [u16]) -> bool
        requires fitting { Fits self.now v.old }
        requires timed { Timed base × Known (recording_of self.now) (vectors_over self.now v.old) self.now.sources.now when.old base 0 }
        ensures becomes { vectors_over self.now v.new ≡ pass (recording_of self.now) (vectors_over self.now v.old) }
        ensures rose { Rose v.old v.new result }
        ensures known_in { Known (recording_of self.now) (vectors_over self.now v.new) self.now.sources.now when.new (base + 1024) 0 }
    {
        let n = self.records.len() / 4;
        let mut changed = false;
        for e in 0..n {
            let rose = self.turn(base, e, when, v);
            changed = changed | rose;
        }
        changed
    }

    // Writes the starting vector of event e from place `from` on, where there are zeros: its own task's number is another.
    fn start_event(&self, e: usize, from: usize, v: &mut [u16])
        requires e_bound { Has self.now e × (from + self.now.counts.tasks ≤ length v.old) }
        requires zeros { Zeros from v.old }
        ensures v_after { v.new ≡ sets v.old from (first_row self.now.counts (events_of self.now.records.now) e) }
        ensures zeros_left { Zeros (from + self.now.counts.tasks) v.new }
    {
        let own = events::event_at(self.records, e);
        v[from + own.task as usize] = self.positions[e];
    }

    // Writes the starting vectors.
    pub fn start(&self, v: &mut [u16])
        requires { Fits self.now v.old }
        ensures { v.new ≡ flat (start (recording_by self.now.records.now self.now.counts [])) }
    {
        let n = self.records.len() / 4;
        let tasks = self.counts.tasks as usize;
        v.fill(0);
        let mut from = 0;
        for e in 0..n {
            self.start_event(e, from, v);
            from += tasks;
        }
    }

    // Passes until the budget is spent or a pass is quiet. Before the first, each stamp is so late that every event is raised in it.
    fn passes(&self, budget: u32, v: &mut [u16]) -> Outcome
        requires fitting { Fits self.now v.old }
        requires v_value { v.old ≡ flat (start (recording_of self.now)) }
        ensures passes_value { result.passes ≡ (run (recording_of self.now) budget).passes }
        ensures settled_value { result.settled ≡ (run (recording_of self.now) budget).settled }
        ensures v_after { v.new ≡ flat (run (recording_of self.now) budget).vectors }
    {
        let mut when = [PASS - 1; STAMPS];
        let mut base = PASS;
        for made in 0..budget {
            let changed = self.pass(base, &mut when, v);
            if !changed {
                return Outcome {
                    passes: made + 1,
                    settled: true,
                };
            }
            base += PASS;
        }
        Outcome {
            passes: budget,
            settled: false,
        }
    }

    // The safe vectors of a run with this budget, the passes made, and whether the last one was quiet.
    pub fn run(&self, budget: u32, v: &mut [u16]) -> Outcome
        requires { Fits self.now v.old }
        ensures passes_value { result.passes ≡ (run (recording_of self.now) budget).passes }
        ensures settled_value { result.settled ≡ (run (recording_of self.now) budget).settled }
        ensures v_after { v.new ≡ flat (run (recording_of self.now) budget).vectors }
    {
        self.start(v);
        self.passes(budget, v)
    }
}
