// The plain types of the trace analyser, and the numbers that stand for its refusals and answers.
// What a recording means, what analysing answers and what is promised is defined in specs/.
#![tactic(auto)]

ghost use Rattle.std.specs.Prelude.{◌≡◌};
ghost use Rattle.model.specs.Refusals.{number_of, record_of, pairs_of, differing_task, differing_position};
ghost use Rattle.model.specs.Question.{relation_number};

// The kinds of records. Numbers and no enum: a record may hold any byte, and `step_at` and `record_check` (refusal 5) speak of such
// records too.
pub const SIGNAL: u8 = 1;

pub const WAIT: u8 = 2;

pub const FORK: u8 = 3;

pub const JOIN: u8 = 4;

pub const READ: u8 = 5;

pub const WRITE: u8 = 6;

pub const POST: u8 = 7;

pub const FLAG_WAIT: u8 = 8;

// A read and a write by the processor's own single-instruction access.
pub const SINGLE_READ: u8 = 9;

pub const SINGLE_WRITE: u8 = 10;

// The most tasks, semaphores, flags, cells and events that a recording has.
pub const MOST_TASKS: u16 = 16;

pub const MOST_SEMAPHORES: u16 = 64;

pub const MOST_FLAGS: u16 = 64;

pub const MOST_CELLS: u16 = 1024;

pub const MOST_EVENTS: usize = 1024;

// The last edition of the file; the first is 1.
pub const LAST_EDITION: u16 = 3;

// The edition that has flags.
pub const WITH_FLAGS: u16 = 3;

// The most bytes of a file that the program reads.
pub const MOST_BYTES: usize = 16384;

// An event is one record of a recording.
#[derive(Clone, Copy)]
pub struct Event {
    pub task: u8,
    pub kind: u8,
    pub object: u16,
}

// How many tasks, semaphores and cells a recording names, and the edition of its file. `semaphores` is the field of the file: in
// edition 3 its low byte counts semaphores and its high byte flags.
#[derive(Clone, Copy)]
pub struct Counts {
    pub tasks: u16,
    pub semaphores: u16,
    pub cells: u16,
    pub edition: u16,
}

// The trailer of a file: where its first record starts, how many records it has, and its counts.
#[derive(Clone, Copy)]
pub struct Trailer {
    pub start: usize,
    pub records: usize,
    pub counts: Counts,
}

// What an object names.
#[derive(Clone, Copy)]
pub enum Class {
    Semaphore,
    Task,
    Cell,
    Flag,
}

// A refusal, by its word in the table: with the faulty record, with the pairs that the list should hold, or with the task and the
// position at which two recordings differ.
#[derive(Clone, Copy)]
pub enum Refusal {
    Short,
    Edition,
    Extent,
    Count,
    Kind(usize),
    Name(usize),
    Life(usize),
    Empty(usize),
    Work,
    List(usize),
    Event,
    Out,
    Starts,
    Differ { task: u16, position: u16 },
    Unsure,
    Flag(usize),
    Stretch,
}

// A step of a walk: what it yields, and the number of the next record.
#[derive(Clone, Copy)]
pub struct Step {
    pub item: Option<Event>,
    pub next: usize,
}

// What analysing answers: the passes made, whether the last one was quiet, and how many pairs are listed.
#[derive(Clone, Copy)]
pub struct Analysis {
    pub passes: u32,
    pub settled: bool,
    pub pairs: usize,
}

// How two events a and b stand to each other.
#[derive(Clone, Copy)]
pub enum Relation {
    First,
    Second,
    Open,
    Sure,
}

// A method each and no `From`: each is held to a definition of its own, and a conversion would not say which number it gives.
impl Refusal {
    // The number of the refusal in the table.
    pub fn number(self) -> u8
        ensures { result ≡ number_of self }
    {
        match self {
            Refusal::Short => 1,
            Refusal::Edition => 2,
            Refusal::Extent => 3,
            Refusal::Count => 4,
            Refusal::Kind(_) => 5,
            Refusal::Name(_) => 6,
            Refusal::Life(_) => 7,
            Refusal::Empty(_) => 8,
            Refusal::Work => 9,
            Refusal::List(_) => 10,
            Refusal::Event => 11,
            Refusal::Out => 12,
            Refusal::Starts => 13,
            Refusal::Differ { .. } => 14,
            Refusal::Unsure => 15,
            Refusal::Flag(_) => 16,
            Refusal::Stretch => 17,
        }
    }

    // The faulty record; 0 where no record is at fault.
    pub fn record(self) -> usize
        ensures { result ≡ record_of self }
    {
        match self {
            Refusal::Kind(e) => e,
            Refusal::Name(e) => e,
            Refusal::Life(e) => e,
            Refusal::Empty(e) => e,
            Refusal::Flag(e) => e,
            _ => 0,
        }
    }

    // The pairs that a list should have held; 0 for another refusal.
    pub fn pairs(self) -> usize
        ensures { result ≡ pairs_of self }
    {
        match self {
            Refusal::List(n) => n,
            _ => 0,
        }
    }

    // The task at which two recordings differ; 0 for another refusal.
    pub fn task(self) -> u16
        ensures { result ≡ differing_task self }
    {
        match self {
            Refusal::Differ { task, .. } => task,
            _ => 0,
        }
    }

    // The position in that task; 0 for another refusal.
    pub fn position(self) -> u16
        ensures { result ≡ differing_position self }
    {
        match self {
            Refusal::Differ { position, .. } => position,
            _ => 0,
        }
    }
}

impl Relation {
    // The number of the answer: 1 a first, 2 b first, 3 open, 4 sure. A method, as `Refusal::number` is.
    pub fn number(self) -> u8
        ensures { result ≡ relation_number self }
    {
        match self {
            Relation::First => 1,
            Relation::Second => 2,
            Relation::Open => 3,
            Relation::Sure => 4,
        }
    }
}
