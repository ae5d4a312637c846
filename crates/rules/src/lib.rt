// The record check, the same for reading and writing: what a record must obey after those before it, and the first that does not.
#![tactic(auto)]

ghost use Rattle.std.specs.Prelude.{◌≡◌, true, List, ℕ, ◌*◌, ◌≤◌, ◌<◌, length};
ghost use Rattle.model.specs.declared.Event.{Event};
ghost use Rattle.model.specs.Numbers.{count};
ghost use Rattle.model.specs.Recording.{
  of_task,
  is_on,
  class_of,
  names_of,
  last_kind,
  known_kind,
  named,
  fork_kept,
  join_kept,
  life_kept,
  wait_kept,
  flag_kept,
  record_check,
  first_fault,
};
ghost use Rattle.model.specs.File.{levels_by, recording_by};
ghost use Rattle.model.specs.Reading.{known_edition, in_range, posts_up};
ghost use Rattle.rules.specs.Running.{places, Counted, Few, Small, Running, Room, noted_on, noted_own};

use model::{
    Class, Counts, Event, FLAG_WAIT, FORK, JOIN, LAST_EDITION, MOST_CELLS, MOST_EVENTS, MOST_FLAGS,
    MOST_SEMAPHORES, MOST_TASKS, POST, Refusal, SIGNAL, SINGLE_WRITE, WAIT, WITH_FLAGS, WRITE,
};

// The running counts have places for as many objects of a kind as there are semaphores, or flags, which are more than tasks.
const PLACES: usize = 64;

// The kinds up to posts. Signals, waits, forks, joins and posts are counted by object; the unused 0, reads and writes are not.
const COUNTED: usize = 512;

// What the object of each kind names: a constant table from kind to class, as document 01 asks.
const CLASS: [Option<Class>; 11] = [
    None, // 0 is no kind
    Some(Class::Semaphore), // 1 signal
    Some(Class::Semaphore), // 2 wait
    Some(Class::Task), // 3 fork
    Some(Class::Task), // 4 join
    Some(Class::Cell), // 5 read
    Some(Class::Cell), // 6 write
    Some(Class::Flag), // 7 post
    Some(Class::Flag), // 8 flag wait
    Some(Class::Cell), // 9 read by a single instruction
    Some(Class::Cell), // 10 write by a single instruction
];

#[tactic(auto, unfolding(model::specs::Recording::class_of))]
fn class_of(kind: u8) -> Option<Class>
    ensures { result ≡ class_of kind }
{
    if kind <= SINGLE_WRITE {
        let k = kind as usize;
        CLASS[k]
    } else {
        None
    }
}

// How many names a class has.
fn names_of(counts: Counts, class: Option<Class>) -> u16
    ensures { result ≡ names_of counts class }
{
    match class {
        None => 0,
        Some(Class::Semaphore) => events::semaphores(counts),
        Some(Class::Task) => counts.tasks,
        Some(Class::Cell) => counts.cells,
        Some(Class::Flag) => events::flags(counts),
    }
}

// Whether the edition is one that is read and written.
#[tactic(auto, unfolding(model::specs::Reading::known_edition))]
pub fn known_edition(counts: Counts) -> bool
    ensures { result ≡ known_edition counts }
{
    (1 <= counts.edition) & (counts.edition <= LAST_EDITION)
}

// Whether each count, and the number of records n, is in its range.
#[tactic(auto, unfolding(model::specs::Reading::in_range))]
pub fn in_range(counts: Counts, n: usize) -> bool
    ensures { result ≡ in_range counts n }
{
    let semaphores = events::semaphores(counts);
    let flags = events::flags(counts);
    (1 <= counts.tasks)
        & (counts.tasks <= MOST_TASKS)
        & (semaphores <= MOST_SEMAPHORES)
        & (flags <= MOST_FLAGS)
        & (counts.cells <= MOST_CELLS)
        & (n <= MOST_EVENTS)
}

// Whether no post count is 0.
pub fn posts_up(posts: &[u8]) -> bool
    ensures { result ≡ posts_up posts.now }
{
    !posts.contains(&0)
}

// The last kind of these counts' edition.
#[tactic(auto, unfolding(model::specs::Recording::last_kind))]
fn last_kind(counts: Counts) -> u8
    ensures { result ≡ last_kind counts }
{
    if counts.edition == WITH_FLAGS {
        return SINGLE_WRITE;
    }
    WRITE
}

#[tactic(auto, unfolding(model::specs::Recording::known_kind))]
fn known_kind(counts: Counts, v: Event) -> bool
    ensures { result ≡ known_kind counts v }
{
    let last = last_kind(counts);
    (SIGNAL <= v.kind) & (v.kind <= last)
}

// Whether the event's task and object are below their counts.
#[tactic(auto, unfolding(model::specs::Recording::named))]
fn is_named(counts: Counts, v: Event) -> bool
    ensures { result ≡ named counts v }
{
    if (v.task as u16) < counts.tasks {
        return v.object < names_of(counts, class_of(v.kind));
    }
    false
}

// The check of records one after another: the counts and level bytes of their recording, and the running counts of the records
// that have passed, `on` by kind and object and `own` by task.
#[derive(Drop)]
struct Checking<'a> {
    counts: Counts,
    levels: &'a [u8],
    on: [u16; COUNTED],
    own: [u16; PLACES],
}

// Its methods require `Small v` and take no type that holds it: the check of a record is where it is found out, and that answers
// no event that could carry it on to `note`.
impl Checking<'_> {
    // How many events of this kind on this object there have been.
    fn count_on(&self, kind: u8, object: u16) -> u16
        requires { Counted kind × (object < places) }
        ensures { (before : List Event) → Running before self.now.on self.now.own → result ≡ count (is_on kind object) before }
    {
        self.on[PLACES * (kind as usize) + (object as usize)]
    }

    // How many events of this task there have been.
    fn count_own(&self, task: u16) -> u16
        requires { task < places }
        ensures { (before : List Event) → Running before self.now.on self.now.own → result ≡ count (of_task task) before }
    {
        self.own[task as usize]
    }

    // Whether the event keeps the rule on forks.
    fn fork_kept(&self, v: Event) -> bool
        requires { Small v }
        ensures { (before : List Event) → Running before self.now.on self.now.own → result ≡ fork_kept before v }
    {
        if v.kind != FORK {
            return true;
        }
        if v.object == v.task as u16 {
            return false;
        }
        if self.count_on(FORK, v.object) != 0 {
            return false;
        }
        self.count_own(v.object) == 0
    }

    // The same for the rule on joins.
    fn join_kept(&self, v: Event) -> bool
        requires { Small v }
        ensures { (before : List Event) → Running before self.now.on self.now.own → result ≡ join_kept before v }
    {
        if v.kind != JOIN {
            return true;
        }
        if v.object == v.task as u16 {
            return false;
        }
        if self.count_on(FORK, v.object) == 0 {
            return false;
        }
        self.count_on(JOIN, v.object) == 0
    }

    // The same for the three rules on a task's life.
    #[tactic(auto, unfolding(model::specs::Recording::life_kept))]
    fn life_kept(&self, v: Event) -> bool
        requires { Small v }
        ensures { (before : List Event) → Running before self.now.on self.now.own → result ≡ life_kept before v }
    {
        if self.count_on(JOIN, v.task as u16) != 0 {
            return false;
        }
        if self.fork_kept(v) {
            return self.join_kept(v);
        }
        false
    }

    // The same for the rule on waits. The signals are taken off the waits and not added to the start count: no sum can wrap.
    #[tactic(auto, unfolding(model::specs::Recording::wait_kept))]
    fn wait_kept(&self, v: Event) -> bool
        requires { Small v }
        ensures { (before : List Event) → Running before self.now.on self.now.own
            → result ≡ wait_kept (levels_by self.now.counts self.now.levels.now) before v }
    {
        if v.kind != WAIT {
            return true;
        }
        let start = events::start_of(self.levels, self.counts, v.object);
        let signals = self.count_on(SIGNAL, v.object);
        let waits = self.count_on(WAIT, v.object);
        if waits < signals {
            return true;
        }
        waits - signals < start
    }

    // The same for the rule on flag waits.
    #[tactic(auto, unfolding(model::specs::Recording::flag_kept))]
    fn flag_kept(&self, v: Event) -> bool
        requires { Small v }
        ensures { (before : List Event) → Running before self.now.on self.now.own
            → result ≡ flag_kept (levels_by self.now.counts self.now.levels.now) before v }
    {
        if v.kind != FLAG_WAIT {
            return true;
        }
        events::post_of(self.levels, self.counts, v.object) <= self.count_on(POST, v.object)
    }

    // Checks the event v as record n.
    #[tactic(auto, using(crate::proofs::Running::small), unfolding(model::specs::Recording::record_check))]
    fn record_check(&self, n: usize, v: Event) -> Result<(), Refusal>
        requires { Few self.now.counts }
        ensures { (before : List Event) → Running before self.now.on self.now.own → length before ≡ n
            → result ≡ record_check self.now.counts (levels_by self.now.counts self.now.levels.now) before v }
    {
        if !known_kind(self.counts, v) {
            return Err(Refusal::Kind(n));
        }
        if !is_named(self.counts, v) {
            return Err(Refusal::Name(n));
        }
        if !self.life_kept(v) {
            return Err(Refusal::Life(n));
        }
        if !self.wait_kept(v) {
            return Err(Refusal::Empty(n));
        }
        if !self.flag_kept(v) {
            return Err(Refusal::Flag(n));
        }
        Ok(())
    }

    // Adds the event to the counts of its kind and object, and to those of its task.
    #[tactic(auto, unfolding(crate::specs::Running::noted_on, crate::specs::Running::noted_own))]
    fn note(&mut self, v: Event)
        requires { Small v × Room self.old.on self.old.own v }
        ensures on_after { self.new.on ≡ noted_on self.old.on v }
        ensures own_after { self.new.own ≡ noted_own self.old.own v }
        ensures rest_kept { (self.new.counts ≡ self.old.counts) × (self.new.levels ≡ self.old.levels) }
    {
        let task = v.task as usize;
        self.own[task] += 1;
        if (v.kind <= JOIN) | (v.kind == POST) {
            let at = PLACES * (v.kind as usize) + (v.object as usize);
            self.on[at] += 1;
        }
    }
}

// The first faulty record among the first n.
pub fn first_fault(records: &[u8], counts: Counts, levels: &[u8], n: usize) -> Result<(), Refusal>
    requires { (4 * n ≤ length records.now) × (in_range counts n ≡ true) }
    ensures { result ≡ first_fault (recording_by records.now counts levels.now) n }
{
    let mut checking = Checking {
        counts,
        levels,
        on: [0; COUNTED],
        own: [0; PLACES],
    };
    for i in 0..n {
        let v = events::event_at(records, i);
        checking.record_check(i, v)?;
        checking.note(v);
    }
    Ok(())
}
