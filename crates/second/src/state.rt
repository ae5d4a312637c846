// What is known of a recording: its events as far as they are read, what they add up to, and the vectors.
ghost use Rattle.std.specs.Prelude.{◌≤◌};

use crate::memory::at;
use crate::vectors::Vectors;

// The most events that a recording has.
pub(crate) const EVENTS: usize = 1024;

// A flag is one more event of the recorded run, behind the 1,024.
pub(crate) const FLAGS_FROM: u16 = 1024;

pub(crate) const WITH_FLAGS: usize = 1088;

// The kinds of events.
#[derive(Clone, Copy, PartialEq, Eq, Default)]
pub(crate) enum Kind {
    #[default]
    Signal,
    Wait,
    Fork,
    Join,
    Read,
    Write,
    Post,
    FlagWait,
    SingleRead,
    SingleWrite,
}

impl Kind {
    // The kind of a byte in an edition.
    pub(crate) fn of(byte: u8, edition: u16) -> Option<Kind> {
        let kind = match byte {
            1 => Kind::Signal,
            2 => Kind::Wait,
            3 => Kind::Fork,
            4 => Kind::Join,
            5 => Kind::Read,
            6 => Kind::Write,
            _ => return Kind::of_third(byte).filter(|_| edition == 3),
        };
        Some(kind)
    }

    // The kinds that edition 3 added.
    fn of_third(byte: u8) -> Option<Kind> {
        match byte {
            7 => Some(Kind::Post),
            8 => Some(Kind::FlagWait),
            9 => Some(Kind::SingleRead),
            10 => Some(Kind::SingleWrite),
            _ => None,
        }
    }
}

// An event: its record; at a wait the start count of its semaphore, at a flag wait or a post the post count
// of its flag; its place in its task, from 1; the event before it in its task or the fork of its task; what
// else it follows: at a join the last event of the joined task or its fork, at a wait the signal that it
// takes, at a flag wait its flag; and at a post that opens a flag that flag.
#[derive(Clone, Copy, Default)]
pub(crate) struct Event {
    pub(crate) task: u16,
    pub(crate) kind: Kind,
    pub(crate) object: u16,
    pub(crate) level: u16,
    pub(crate) position: u16,
    pub(crate) before: Option<u16>,
    pub(crate) follows: Option<u16>,
    pub(crate) opens: Option<u16>,
}

impl Event {
    const NONE: Event = Event {
        task: 0,
        kind: Kind::Signal,
        object: 0,
        level: 0,
        position: 0,
        before: None,
        follows: None,
        opens: None,
    };

    pub(crate) fn is_on(&self, kind: Kind, object: u16) -> bool {
        self.kind == kind && self.object == object
    }
}

// How many signals and waits there are so far.
#[derive(Clone, Copy, Default)]
pub(crate) struct Semaphore {
    pub(crate) signals: u16,
    pub(crate) waits: u16,
}

// What is known of a task so far: its last event is before the first its fork.
#[derive(Clone, Copy, Default)]
pub(crate) struct Task {
    pub(crate) forked: bool,
    pub(crate) joined: bool,
    pub(crate) events: u16,
    pub(crate) last: Option<u16>,
}

// What the events add up to; of a flag, its posts.
#[derive(Clone, Copy)]
pub(crate) struct Seen {
    pub(crate) semaphores: [Semaphore; 64],
    pub(crate) posts: [u16; 64],
    pub(crate) tasks: [Task; 16],
}

impl Seen {
    const NONE: Seen = Seen {
        semaphores: [Semaphore {
            signals: 0,
            waits: 0,
        }; 64],
        posts: [0; 64],
        tasks: [Task {
            forked: false,
            joined: false,
            events: 0,
            last: None,
        }; 16],
    };
}

// The events lie in an array with their number beside it: an ArrayVec was tried, and Rattle's own compiler takes 5
// microseconds to fill one, where reading a short file takes 6 with the array. The vectors lie apart from the events,
// since the recorded ones are also of flags.
#[derive(Drop)]
pub(crate) struct State {
    events: [Event; EVENTS],
    count: usize,
    pub(crate) seen: Seen,
    pub(crate) safe: Vectors<EVENTS>,
    pub(crate) recorded: Vectors<WITH_FLAGS>,
    ghost fits: { count ≤ 1024 },
}

impl State {
    // A constant: returned by a function, Rattle's own compiler would copy it once more.
    pub(crate) const EMPTY: State = State {
        events: [Event::NONE; EVENTS],
        count: 0,
        seen: Seen::NONE,
        safe: Vectors {
            rows: [[0; 16]; EVENTS],
        },
        recorded: Vectors {
            rows: [[0; 16]; WITH_FLAGS],
        },
    };

    // The events as far as they are read.
    pub(crate) fn events(&self) -> &[Event] {
        &self.events[..self.count]
    }

    // One of them.
    pub(crate) fn event(&self, e: u16) -> Event {
        at(&self.events, e as usize)
    }

    // Takes one more event; nothing where there is no room.
    pub(crate) fn push(&mut self, event: Event) {
        if self.count < EVENTS {
            self.events[self.count] = event;
            self.count += 1;
        }
    }
}
