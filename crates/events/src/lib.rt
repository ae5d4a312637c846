// The records as lent bytes: an event's fields and the tests of an access, searches over the first records, the look back over a
// part for a task's last record, and what one look at all records keeps of each: positions, sources, chains of the events on one
// object, and the task order. And the counts: semaphores and flags, and the level bytes, which are start counts and post counts.
#![tactic(auto)]

ghost use Rattle.std.specs.Prelude.{◌≡◌, true, ◌+◌, ◌*◌, ◌/◌, ◌≤◌, ◌<◌, eqb, length, get_or, take};
ghost use Rattle.std.proofs.lemmas.List.Edits.{sets};
ghost use Rattle.model.specs.Numbers.{last_of, picked};
ghost use Rattle.model.specs.Recording.{start_of, post_of, semaphores_of, flags_of, event_in, of_task, is_on};
ghost use Rattle.model.specs.File.{u16_at, events_of, record_bytes, start_count, level_count, level_bytes, levels_by};
ghost use Rattle.model.specs.Reading.{most_tasks, most_cells, most_events};
ghost use Rattle.model.specs.Passes.{fork_of, last_event, before_or_fork};
ghost use Rattle.model.specs.LastEvent.{records_read, NoneAfterJoin};
ghost use Rattle.model.specs.Pairs.{is_read, is_write, is_access, is_single, own_events, task_order};
ghost use Rattle.events.specs.Chains.{access_of, by_task, Along, put_first, linked, Chained, slot_of, slots, head, on_at, Gathered};
ghost use Rattle.std.specs.Iterator.{YieldsFirst, item_count};
ghost use Rattle.events.specs.Links.{along, rising};
ghost use Rattle.events.specs.Kept.{Positions, KeptTasks, Below, found_below, KeptForks, of_join, Sources, Tasked};

use model::{
    Counts, Event, FORK, JOIN, MOST_EVENTS, MOST_FLAGS, MOST_SEMAPHORES, POST, READ, SIGNAL,
    SINGLE_READ, SINGLE_WRITE, Trailer, WAIT, WITH_FLAGS, WRITE,
};

// The number of two bytes, little-endian.
#[tactic(auto, unfolding(model::specs::File::u16_at))]
pub fn u16_at(s: &[u8], i: usize) -> u16
    requires { i + 1 < length s.now }
    ensures { result ≡ u16_at s.now i }
{
    u16::from_le_bytes([s[i], s[i + 1]])
}

// The records' part of a file with this trailer.
#[tactic(auto, unfolding(model::specs::File::record_bytes))]
pub fn records_of(file: &[u8], trailer: Trailer) -> &[u8]
    requires { trailer.start + 4 * trailer.records ≤ length file.now }
    ensures { result.now ≡ record_bytes file.now trailer }
{
    let start = trailer.start;
    let stop = start + 4 * trailer.records;
    &file[start..stop]
}

// How many semaphores a recording with these counts has: with flags, the low byte of the field.
#[tactic(auto, unfolding(model::specs::Recording::semaphores_of))]
pub fn semaphores(counts: Counts) -> u16
    ensures { result ≡ semaphores_of counts }
{
    if counts.edition == WITH_FLAGS {
        return counts.semaphores % 256;
    }
    counts.semaphores
}

// How many flags: the high byte.
#[tactic(auto, unfolding(model::specs::Recording::flags_of))]
pub fn flags(counts: Counts) -> u16
    ensures { result ≡ flags_of counts }
{
    if counts.edition == WITH_FLAGS {
        return counts.semaphores / 256;
    }
    0
}

// How many start bytes a file with these counts has.
#[tactic(auto, unfolding(model::specs::File::start_count))]
pub fn start_count(counts: Counts) -> usize
    ensures { (result ≡ start_count counts) × (result < 65536) }
{
    if counts.edition == 1 {
        return 0;
    }
    semaphores(counts) as usize
}

// How many level bytes it has between its records and its trailer.
#[tactic(auto, unfolding(model::specs::File::level_count))]
pub fn level_count(counts: Counts) -> usize
    ensures { (result ≡ level_count counts) × (result < 131072) }
{
    start_count(counts) + (flags(counts) as usize)
}

// The level bytes of a file with this trailer.
#[tactic(auto, unfolding(model::specs::File::level_bytes))]
pub fn levels_of(file: &[u8], trailer: Trailer) -> &[u8]
    requires { trailer.start + 4 * trailer.records + level_count trailer.counts ≤ length file.now }
    ensures { result.now ≡ level_bytes file.now trailer }
{
    let start = trailer.start + 4 * trailer.records;
    let stop = start + level_count(trailer.counts);
    &file[start..stop]
}

// The parts of a file, without its trailer: its records, what its counts are, and its level bytes.
#[derive(Clone, Copy)]
pub struct Parts<'a> {
    pub records: &'a [u8],
    pub counts: Counts,
    pub levels: &'a [u8],
}

impl Parts<'_> {
    // The parts of a file with this trailer.
    pub fn of(file: &[u8], trailer: Trailer) -> Parts<'_>
        requires { trailer.start + 4 * trailer.records + level_count trailer.counts ≤ length file.now }
        ensures records_value { result.records.now ≡ record_bytes file.now trailer }
        ensures counts_value { result.counts ≡ trailer.counts }
        ensures levels_value { result.levels.now ≡ level_bytes file.now trailer }
    {
        Parts {
            records: records_of(file, trailer),
            counts: trailer.counts,
            levels: levels_of(file, trailer),
        }
    }
}

// The start bytes among the level bytes.
pub fn start_bytes(levels: &[u8], counts: Counts) -> &[u8]
    ensures { result.now ≡ (levels_by counts levels.now).starts }
{
    let n = start_count(counts);
    if n < levels.len() {
        return &levels[..n];
    }
    levels
}

// The post bytes, which are the others.
pub fn post_bytes(levels: &[u8], counts: Counts) -> &[u8]
    ensures { result.now ≡ (levels_by counts levels.now).posts }
{
    let n = start_count(counts);
    if n < levels.len() {
        return &levels[n..];
    }
    &levels[..0]
}

// Byte i of these; 0 where none is given.
pub fn level_at(bytes: &[u8], i: u16) -> u16
    ensures { result ≡ get_or bytes.now i 0 }
{
    let at = i as usize;
    if at < bytes.len() {
        return bytes[at] as u16;
    }
    0 // no byte is given
}

// The start count of semaphore s.
pub fn start_of(levels: &[u8], counts: Counts, s: u16) -> u16
    ensures { result ≡ start_of (levels_by counts levels.now) s }
{
    level_at(start_bytes(levels, counts), s)
}

// The post count of flag g.
pub fn post_of(levels: &[u8], counts: Counts, g: u16) -> u16
    ensures { result ≡ post_of (levels_by counts levels.now) g }
{
    level_at(post_bytes(levels, counts), g)
}

// Event e, which is record e.
#[tactic(auto, using(crate::proofs::Laws::event_at_lem), unfolding(model::specs::File::event_at))]
pub fn event_at(records: &[u8], e: usize) -> Event
    requires { 4 * e + 3 < length records.now }
    ensures { result ≡ event_in (events_of records.now) e }
{
    let at = 4 * e;
    Event {
        task: records[at],
        kind: records[at + 1],
        object: u16_at(records, at + 2),
    }
}

// Whether the event is a read, plain or by a single instruction.
fn is_read(v: Event) -> bool
    ensures { result ≡ is_read v }
{
    (v.kind == READ) | (v.kind == SINGLE_READ)
}

// Whether it is a write, plain or by a single instruction.
pub fn is_write(v: Event) -> bool
    ensures { result ≡ is_write v }
{
    (v.kind == WRITE) | (v.kind == SINGLE_WRITE)
}

// Whether it is an access: a read or a write.
pub fn is_access(v: Event) -> bool
    ensures { result ≡ is_access v }
{
    is_read(v) | is_write(v)
}

// Whether it is an access by a single instruction.
pub fn is_single(v: Event) -> bool
    ensures { result ≡ is_single v }
{
    (v.kind == SINGLE_READ) | (v.kind == SINGLE_WRITE)
}

// Whether event e has this kind and this object.
pub fn is_on(records: &[u8], e: usize, kind: u8, object: u16) -> bool
    requires { 4 * e + 3 < length records.now }
    ensures { result ≡ is_on kind object (event_in (events_of records.now) e) }
{
    let v = event_at(records, e);
    (v.kind == kind) & (v.object == object)
}

// Whether event e is this task's.
fn is_of_task(records: &[u8], e: usize, task: u16) -> bool
    requires { 4 * e + 3 < length records.now }
    ensures { result ≡ of_task task (event_in (events_of records.now) e) }
{
    let v = event_at(records, e);
    v.task as u16 == task
}

// The last of the first n events with this kind and this object.
pub fn last_on(records: &[u8], n: usize, kind: u8, object: u16) -> Option<usize>
    requires { 4 * n ≤ length records.now }
    ensures { result ≡ last_of (λ a. is_on kind object (event_in (events_of records.now) a)) n }
{
    for i in (0..n).rev() {
        if is_on(records, i, kind, object) {
            return Some(i);
        }
    }
    None
}

// What a look back over a part of the records found, and how many of them it read.
#[derive(Clone, Copy)]
pub struct Look {
    pub last: Option<usize>,
    pub read: usize,
}

// The last record of this task in a part of the records, by its number within the part, and how many records were read: the
// look goes back from the part's end and stops at the first hit. Bytes behind the last whole record are no record.
pub fn last_event(part: &[u8], task: u16) -> Look
    ensures last_value { result.last ≡ last_event (events_of part.now) task }
    ensures read_value { result.read ≡ records_read (events_of part.now) task }
{
    let mut read = 0;
    for e in (0..part.len() / 4).rev() {
        read += 1;
        if is_of_task(part, e, task) {
            return Look {
                last: Some(e),
                read,
            };
        }
    }
    Look { last: None, read }
}

// What is kept of each event stands in arrays with a place for as many events as a recording can have: the library takes no
// memory of its own (a rule of the project).

// The position of each event, in one look: `own` counts the records passed of each task, which is a byte.
pub fn positions(records: &[u8]) -> [u16; MOST_EVENTS]
    requires { length records.now ≤ 4 * most_events }
    ensures { Positions (events_of records.now) result }
{
    let n = records.len() / 4;
    let mut positions = [0u16; MOST_EVENTS];
    let mut own = [0u16; 256];
    for e in 0..n {
        let task = records[4 * e] as usize;
        let at = own[task] + 1;
        own[task] = at;
        positions[e] = at;
    }
    positions
}

// The task of each event, in one look.
fn kept_tasks(records: &[u8]) -> [u8; MOST_EVENTS]
    requires { length records.now ≤ 4 * most_events }
    ensures { KeptTasks (events_of records.now) result }
{
    let n = records.len() / 4;
    let mut tasks = [0u8; MOST_EVENTS];
    for e in 0..n {
        tasks[e] = records[4 * e];
    }
    tasks
}

// The last of the first n events that is this task's, found by a call on the record one lower; a number that no event has where
// there is none: an enum made each step a call through memory (docs/DECISIONS.md, Code).
fn task_before(tasks: &[u8; MOST_EVENTS], n: usize, task: u8) -> usize
    requires { n ≤ most_events }
    ensures { found_below most_events result ≡ last_of (λ a. eqb (get_or tasks.now a 0) task) n }
{
    if n == 0 {
        return MOST_EVENTS;
    }
    let e = n - 1;
    if tasks[e] == task {
        return e;
    }
    task_before(tasks, e, task)
}

// The last fork of each task that is a byte, in one look; the number of all events where there is none.
fn kept_forks(records: &[u8]) -> [u16; 256]
    requires { length records.now ≤ 4 * most_events }
    ensures { KeptForks (events_of records.now) result }
{
    let n = records.len() / 4;
    let mut forks = [n as u16; 256];
    for e in 0..n {
        let v = event_at(records, e);
        if (v.kind == FORK) & (v.object < 256) {
            forks[v.object as usize] = e as u16;
        }
    }
    forks
}

// The fork of a task; of one that is no byte, and so has no record, it is searched for.
fn fork_of(records: &[u8], forks: &[u16; 256], task: u16) -> Option<usize>
    requires { KeptForks (events_of records.now) forks.now }
    ensures { (result ≡ fork_of (events_of records.now) task) × Below (length records.now / 4) result }
{
    let n = records.len() / 4;
    if task < 256 {
        return found_below(n, forks[task as usize]);
    }
    last_on(records, n, FORK, task)
}

// The event before e in its task, or for the first event of a task the fork.
fn before_or_fork(
    records: &[u8],
    tasks: &[u8; MOST_EVENTS],
    forks: &[u16; 256],
    e: usize,
) -> Option<usize>
    requires kept_tasks { KeptTasks (events_of records.now) tasks.now × KeptForks (events_of records.now) forks.now }
    requires records_len_bound { (length records.now ≤ 4 * most_events) × (4 * e + 3 < length records.now) }
    ensures { (result ≡ before_or_fork (events_of records.now) e) × Below (length records.now / 4) result }
{
    let task = tasks[e];
    let before = task_before(tasks, e, task);
    if before < MOST_EVENTS {
        return Some(before);
    }
    fork_of(records, forks, task as u16)
}

// For a join, the fork of the task that is joined.
fn join_fork(records: &[u8], forks: &[u16; 256], e: usize) -> Option<usize>
    requires { KeptForks (events_of records.now) forks.now × (4 * e + 3 < length records.now) }
    ensures { (result ≡ of_join (events_of records.now) e (fork_of (events_of records.now) (event_in (events_of records.now) e).object))
        × Below (length records.now / 4) result }
{
    let j = event_at(records, e);
    if j.kind != JOIN {
        return None;
    }
    fork_of(records, forks, j.object)
}

// For a join, the last event of the task that is joined: none follows the join, so the look goes back from there.
fn join_last(records: &[u8], e: usize) -> Option<usize>
    requires { NoneAfterJoin (events_of records.now) × (4 * e + 3 < length records.now) }
    ensures { (result ≡ of_join (events_of records.now) e (last_event (events_of records.now) (event_in (events_of records.now) e).object))
        × Below (length records.now / 4) result }
{
    let j = event_at(records, e);
    if j.kind != JOIN {
        return None;
    }
    let look = last_event(&records[..4 * e], j.object);
    look.last
}

// A found event of n as a number: n where none was found. The sources are kept as numbers: an array of Options is twice as large.
fn number_of(found: Option<usize>, n: usize) -> u16
    requires { Below n found × (n ≤ most_events) }
    ensures { (found_below n result ≡ found) × (result ≤ n) }
{
    match found {
        Some(a) => a as u16,
        None => n as u16,
    }
}

// And back.
pub fn found_below(n: usize, a: u16) -> Option<usize>
    ensures { (result ≡ found_below n a) × Below n result }
{
    if (a as usize) < n {
        return Some(a as usize);
    }
    None
}

// A place for each of the three sources of each event.
pub const SOURCES: usize = 3072;

// The sources of each event: the event before or the fork, and for a join the fork and the last event of its task. One search
// for each event before: a record is passed by at most one search of each task.
pub fn sources(records: &[u8]) -> [u16; SOURCES]
    requires { (length records.now ≤ 4 * most_events) × NoneAfterJoin (events_of records.now) }
    ensures { Sources (events_of records.now) result }
{
    let n = records.len() / 4;
    let tasks = kept_tasks(records);
    let forks = kept_forks(records);
    let mut kept = [0u16; SOURCES];
    for e in 0..n {
        kept[3 * e] = number_of(before_or_fork(records, &tasks, &forks, e), n);
        kept[3 * e + 1] = number_of(join_fork(records, &forks, e), n);
        kept[3 * e + 2] = number_of(join_last(records, e), n);
    }
    kept
}

// How long chains are: a place for each event, then one for each object.
pub const CHAINS: usize = 2048;

// The numbers below `end` that a chain links from `next` on, one after another.
#[derive(Drop)]
pub struct Linked<'a> {
    pub links: &'a [u16; CHAINS],
    pub next: usize,
    pub end: usize,
    ghost room: { end ≤ 1024 },
    ghost up: { rising links.now end next ≡ true },
}

impl<'a> Linked<'a> {
    // The numbers below `end` in the chain that begins at place `head`.
    pub fn from(links: &'a [u16; CHAINS], head: usize, end: usize) -> Linked<'a>
        requires inside { (head < 2048) × (end ≤ 1024) }
        requires up { rising links.now end (get_or links.now head 0) ≡ true }
        ensures { along result.links.now result.end result.end result.next ≡ along links.now end end (get_or links.now head 0) }
    {
        let next = links[head] as usize;
        Linked { links, next, end }
    }
}

impl Iterator for Linked<'_> {
    type Item = usize;

    ghost next_gives = { YieldsFirst (λ s. along s.links.now s.end s.end s.next) };

    ghost remaining = { item_count (λ s. along s.links.now s.end s.end s.next) };

    fn next(&mut self) -> Option<usize> {
        let e = self.next;
        if self.end <= e {
            return None;
        }
        self.next = self.links[e] as usize;
        Some(e)
    }
}

// Puts place i first in the chain of object x.
fn put_first(chain: &mut [u16; CHAINS], x: u16, i: usize)
    requires { (x < most_cells) × (i < most_events) }
    ensures { chain.new ≡ put_first x i chain.old }
{
    let head = MOST_EVENTS + (x as usize);
    chain[i] = chain[head];
    chain[head] = i as u16;
}

// Puts place i, that of the event v, first in the chain of its cell, where it is an access of one below `limit`.
#[tactic(auto, unfolding(crate::specs::Chains::linked))]
fn link(v: Event, limit: u16, i: usize, chain: &mut [u16; CHAINS])
    requires { (limit ≤ most_cells) × (i < most_events) }
    ensures { chain.new ≡ linked limit v i chain.old }
{
    if !is_access(v) | (limit <= v.object) {
        return;
    }
    put_first(chain, v.object, i);
}

// The slots that events are gathered in: one for the signals on each semaphore, one for the waits on it, one for the posts on
// each flag, and the last for every other event.
const WAITS: u16 = 64;

const POSTS: u16 = 128;

const OTHERS: u16 = 192;

// The slot of the events of this kind on object x.
#[tactic(auto, unfolding(crate::specs::Chains::slot_of))]
pub fn slot_of(kind: u8, x: u16) -> u16
    ensures { (result ≡ slot_of kind x) × (result ≤ slots) }
{
    if (kind == SIGNAL) & (x < MOST_SEMAPHORES) {
        return x;
    }
    if (kind == WAIT) & (x < MOST_SEMAPHORES) {
        return WAITS + x;
    }
    if (kind == POST) & (x < MOST_FLAGS) {
        return POSTS + x;
    }
    OTHERS
}

// Gathers all events in the chains of their slots, from the last event to the first.
pub fn gather(records: &[u8]) -> [u16; CHAINS]
    requires { length records.now ≤ 4 * most_events }
    ensures { Gathered records.now result }
{
    let n = records.len() / 4;
    let mut chain = [n as u16; CHAINS];
    for e in (0..n).rev() {
        let v = event_at(records, e);
        put_first(&mut chain, slot_of(v.kind, v.object), e);
    }
    chain
}

// The events of this kind on object x, in file order; by gathered chains.
pub fn events_on<'a>(records: &[u8], chains: &'a [u16; CHAINS], kind: u8, x: u16) -> Linked<'a>
    requires { Gathered records.now chains.now × (length records.now ≤ 4 * most_events) × (slot_of kind x < slots) }
    ensures { along result.links.now result.end result.end result.next ≡ picked (on_at records.now kind x) (length (events_of records.now)) }
{
    let slot = slot_of(kind, x) as usize;
    Linked::from(chains, MOST_EVENTS + slot, records.len() / 4)
}

// The first event in the slot of this kind on object x; in gathered chains the number of all events where there is none.
pub fn first_on(chain: &[u16; CHAINS], kind: u8, x: u16) -> usize
    ensures { result ≡ get_or chain.now (head (slot_of kind x)) 0 }
{
    at_place(chain, MOST_EVENTS + (slot_of(kind, x) as usize))
}

// The event at place i of an order, or the next one in a chain.
pub fn at_place(order: &[u16], i: usize) -> usize
    requires { i < length order.now }
    ensures { result ≡ get_or order.now i 0 }
{
    order[i] as usize
}

// Gathers the accesses of each cell along an order of the events: the chains are of places in it.
pub fn gather_in(records: &[u8], order: &[u16], limit: u16) -> [u16; CHAINS]
    requires { Along records.now order.now × (limit ≤ most_cells) }
    ensures { Chained (access_of records.now order.now) (length order.now) limit 0 result }
{
    let n = order.len();
    let mut chain = [n as u16; CHAINS];
    for i in (0..n).rev() {
        let v = event_at(records, at_place(order, i));
        link(v, limit, i, &mut chain);
    }
    chain
}

// Gathers the events of each task, which is a byte, in a chain, from the last event to the first.
pub fn gather_tasks(records: &[u8]) -> [u16; CHAINS]
    requires { length records.now ≤ 4 * most_events }
    ensures { Chained (by_task records.now) (length records.now / 4) 256 0 result }
{
    let events = records.len() / 4;
    let mut chain = [events as u16; CHAINS];
    for e in (0..events).rev() {
        put_first(&mut chain, records[4 * e] as u16, e);
    }
    chain
}

// The events of a task, which is a byte, in file order.
pub fn task_events<'a>(records: &[u8], chain: &'a [u16; CHAINS], task: u16) -> Linked<'a>
    requires { Chained (by_task records.now) (length records.now / 4) 256 0 chain.now × (length records.now ≤ 4 * most_events) × (task < 256) }
    ensures { along result.links.now result.end result.end result.next ≡ own_events (events_of records.now) task }
{
    Linked::from(chain, MOST_EVENTS + (task as usize), records.len() / 4)
}

// Puts the events of a task into the order from place `at` on. Answers the place after them.
fn put_task(
    records: &[u8],
    chain: &[u16; CHAINS],
    task: u16,
    order: &mut [u16; MOST_EVENTS],
    at: usize,
) -> usize
    requires chained { Chained (by_task records.now) (length records.now / 4) 256 0 chain.now × (length records.now ≤ 4 * most_events) × (task < 256) }
    requires task_bound { at + length (own_events (events_of records.now) task) ≤ most_events }
    ensures order_after { order.new ≡ sets order.old at (own_events (events_of records.now) task) }
    ensures value { result ≡ at + length (own_events (events_of records.now) task) }
{
    let mut next = at;
    for e in task_events(records, chain, task) {
        order[next] = e as u16;
        next += 1;
    }
    next
}

// The events in task order: by task, and within a task in file order.
pub fn task_order(records: &[u8], tasks: u16) -> [u16; MOST_EVENTS]
    requires { (length records.now ≤ 4 * most_events) × (tasks ≤ most_tasks) × Tasked (events_of records.now) tasks }
    ensures { take (length records.now / 4) result ≡ task_order (events_of records.now) tasks }
{
    let chain = gather_tasks(records);
    let mut order = [0u16; MOST_EVENTS];
    let mut at = 0;
    for task in 0..tasks {
        at = put_task(records, &chain, task, &mut order, at);
    }
    order
}
