// One reading of a file, from the first record to the last: the refusals, each record's place in its
// task, the events that it follows, and the recorded vectors.
ghost use Rattle.second.specs.Refusals.{RefusesUpTo};

use crate::file::Recording;
use crate::memory::at;
use crate::state::{Event, FLAGS_FROM, Kind, Seen, Semaphore, State};
use crate::vectors::replay;
use crate::{Fault, Parts, Reading};

// ---- one record

// A record, with the start count of its semaphore or the post count of its flag.
#[derive(Clone, Copy)]
struct Record {
    task: u16,
    kind: Kind,
    object: u16,
    level: u16,
}

// A record of these bytes; none where it has no kind of the edition.
fn decode(bytes: &[u8; 4], parts: &Parts<'_>, edition: u16) -> Option<Record> {
    let [task, kind, low, high] = *bytes;
    let kind = Kind::of(kind, edition)?;
    let object = u16::from_le_bytes([low, high]);
    let levels = match kind {
        Kind::Signal | Kind::Wait => parts.starts,
        _ => parts.posts,
    };
    Some(Record {
        task: task as u16,
        kind,
        object,
        level: at(levels, object as usize) as u16,
    })
}

impl Reading {
    // How many names the objects of a kind have.
    fn names(&self, kind: Kind) -> u16 {
        match kind {
            Kind::Signal | Kind::Wait => self.semaphores,
            Kind::Fork | Kind::Join => self.tasks,
            Kind::Post | Kind::FlagWait => self.flags,
            _ => self.cells,
        }
    }
}

impl Seen {
    // One of the rules on a task's life is broken: by a task that has been joined, by a fork of a task that
    // was forked or has events, or by a join of a task that was not forked or was joined.
    fn breaks_life(&self, x: &Record) -> bool {
        let named = at(&self.tasks, x.object as usize);
        let own = x.object == x.task;
        let broken = match x.kind {
            Kind::Fork => own || named.forked || named.events != 0,
            Kind::Join => own || !named.forked || named.joined,
            _ => false,
        };
        broken || at(&self.tasks, x.task as usize).joined
    }

    // Refusals 6 to 8 and 16 of record e.
    fn check(&self, e: u16, x: &Record, r: &Reading) -> Result<(), Fault>
        ensures { RefusesUpTo 16 result }
    {
        if r.tasks <= x.task || r.names(x.kind) <= x.object {
            return Err(Fault::Name { record: e });
        }
        if self.breaks_life(x) {
            return Err(Fault::Life { record: e });
        }
        let i = x.object as usize;
        let semaphore = at(&self.semaphores, i);
        let stock = x.level.wrapping_add(semaphore.signals);
        if x.kind == Kind::Wait && stock <= semaphore.waits {
            return Err(Fault::Empty { record: e });
        }
        if x.kind == Kind::FlagWait && at(&self.posts, i) < x.level {
            return Err(Fault::Flag { record: e });
        }
        Ok(())
    }

    // Counts a record under its kind and object.
    fn count_kind(&mut self, x: &Record) {
        let i = x.object as usize;
        if let Some(semaphore) = self.semaphores.get_mut(i) {
            semaphore.count(x.kind);
        }
        if let Some(posts) = self.posts.get_mut(i) {
            *posts = posts.wrapping_add((x.kind == Kind::Post) as u16);
        }
    }

    // Counts event e under its task, and notes a fork or a join of the task that it names. A fork is the last
    // event of that task, before the first.
    fn count_task(&mut self, e: u16, x: &Record) {
        if let Some(task) = self.tasks.get_mut(x.task as usize) {
            task.events = task.events.wrapping_add(1);
            task.last = Some(e);
        }
        if let Some(named) = self.tasks.get_mut(x.object as usize) {
            match x.kind {
                Kind::Fork => {
                    named.forked = true;
                    named.last = Some(e);
                }
                Kind::Join => named.joined = true,
                _ => {}
            }
        }
    }
}

impl Semaphore {
    fn count(&mut self, kind: Kind) {
        match kind {
            Kind::Signal => self.signals = self.signals.wrapping_add(1),
            Kind::Wait => self.waits = self.waits.wrapping_add(1),
            _ => {}
        }
    }
}

// ---- the records in order

impl State {
    // The signal that a wait takes: the first that has as many signals on the semaphore before itself as
    // there were waits that took one. The first waits, as many as the start count, take none.
    fn signal_for(&self, x: &Record) -> Option<u16> {
        let object = x.object;
        let waits = at(&self.seen.semaphores, object as usize).waits;
        let before = waits.checked_sub(x.level)?;
        let (s, _) = (0u16..)
            .zip(self.events())
            .filter(|(_, s)| s.is_on(Kind::Signal, object))
            .nth(before as usize)?;
        Some(s)
    }

    // What a record follows but for the event before it.
    fn followed_by(&self, x: &Record) -> Option<u16> {
        match x.kind {
            Kind::Wait => self.signal_for(x),
            Kind::Join => at(&self.seen.tasks, x.object as usize).last,
            Kind::FlagWait => Some(flag_of(x)),
            _ => None,
        }
    }

    // The flag that a record opens. The first posts open a flag, as many as its post count.
    fn opened_by(&self, x: &Record) -> Option<u16> {
        if x.kind == Kind::Post && at(&self.seen.posts, x.object as usize) < x.level {
            return Some(flag_of(x));
        }
        None
    }

    // A record becomes event e.
    fn keep(&mut self, e: u16, x: &Record) {
        let task = at(&self.seen.tasks, x.task as usize);
        let event = Event {
            task: x.task,
            kind: x.kind,
            object: x.object,
            level: x.level,
            position: task.events.wrapping_add(1),
            before: task.last,
            follows: self.followed_by(x),
            opens: self.opened_by(x),
        };
        self.push(event);
        self.seen.count_kind(x);
        self.seen.count_task(e, x);
        replay(self, e, &event);
    }
}

// The flag of a record, among the events.
fn flag_of(x: &Record) -> u16 {
    FLAGS_FROM + x.object % 64
}

// The first fault of the records, with the counts that were read.
pub(crate) fn scan(recording: &Recording<'_>, state: &mut State) -> Result<(), Fault>
    ensures { RefusesUpTo 16 result }
{
    let Recording { reading, parts } = *recording;
    let (records, _) = parts.records.as_chunks::<4>();
    for (e, bytes) in (0u16..).zip(records) {
        let Some(x) = decode(bytes, &parts, reading.edition) else {
            return Err(Fault::Kind { record: e });
        };
        state.seen.check(e, &x, &reading)?;
        state.keep(e, &x);
    }
    Ok(())
}

// Reads a file, and leaves its state.
pub(crate) fn load<'a>(file: &'a [u8], state: &mut State) -> Result<Recording<'a>, Fault>
    ensures { RefusesUpTo 16 result }
{
    let recording = Recording::of(file)?;
    scan(&recording, state)?;
    Ok(recording)
}
