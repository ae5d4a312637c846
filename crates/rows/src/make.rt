// Recordings from a fixed seed: events are drawn and kept where the rules allow them, so that forks,
// joins, waits that compete for signals, and posts before and after a flag opens occur; then some are
// damaged.
ghost use Rattle.std.specs.Prelude.{◌≡◌, ◌+◌, ◌%◌, ◌<◌, ◌≤◌, length};

use crate::bytes::{Bytes, at, put};
use crate::records::{Kind, Record, Shape, place, put_preamble, put_record, put_trailer};

// ---- drawing

// From where numbers are drawn, one after the other.
#[derive(Clone, Copy)]
pub struct Seed(pub u32);

impl Seed {
    // A number below n; 0 where n is 0.
    pub fn draw(&mut self, n: u32) -> u32
        ensures at_most { result ≤ n }
        ensures below { 0 < n → result < n }
    {
        let x = u64::from(self.0 % 2147483648);
        let y = (x * 1103515245 + 12345) % 2147483648;
        self.0 = y as u32;
        if n == 0 {
            return 0;
        }
        (y / 65536) as u32 % n
    }

    pub fn draw_word(&mut self, n: u16) -> u16
        ensures at_most { result ≤ n }
        ensures below { 0 < n → result < n }
    {
        self.draw(n as u32) as u16
    }

    // A number from low to low + n.
    pub fn draw_from(&mut self, low: u16, n: u16) -> u16
        ensures { low % 32768 ≤ result }
    {
        let more = self.draw_word(n) % 32768;
        low % 32768 + more
    }
}

// ---- events

// What is noted, by semaphore, by task or by flag: what a wait can take, of the start count and of signals; forked;
// joined; has a record; runs only once forked; the start counts; how many posts a flag lacks; and the post counts.
#[derive(Clone, Copy)]
enum Area {
    Stock = 0,
    Forked = 64,
    Joined = 128,
    Seen = 192,
    Late = 256,
    Starts = 320,
    Lack = 384,
    Posts = 448,
}

// How many events there are, and what has happened in them. An area has 64 numbers, enough for a recording that
// reading accepts. Where a row asks for more, a number past them falls into the areas behind, and past the last of
// these it is lost.
#[derive(Clone, Copy)]
struct Life {
    events: u16,
    noted: [u16; 512],
}

#[derive(Clone, Copy)]
struct Event {
    task: u16,
    kind: Kind,
    object: u16,
}

// The kinds of an edition.
pub fn kinds_in(edition: u16) -> u16
    ensures { result ≤ 10 }
{
    if edition == 3 { 10 } else { 6 }
}

// How many objects there are for a kind.
fn objects_for(kind: Kind, s: Shape) -> u16 {
    match kind {
        Kind::Signal | Kind::Wait => s.semaphores,
        Kind::Fork | Kind::Join => s.tasks,
        Kind::Read | Kind::Write | Kind::SingleRead | Kind::SingleWrite => s.cells,
        Kind::Post | Kind::FlagWait => s.flags,
    }
}

fn draw_kind(seed: &mut Seed, edition: u16) -> Kind {
    let n = seed.draw_from(1, kinds_in(edition)) % 256;
    Kind::numbered(n as u8).unwrap_or(Kind::Signal)
}

impl Event {
    fn record(self) -> Record {
        Record {
            task: self.task,
            kind: self.kind as u16,
            object: self.object,
        }
    }
}

impl Life {
    fn at(&self, area: Area, i: u16) -> u16 {
        at(&self.noted, area as usize + i as usize)
    }

    fn put(&mut self, area: Area, i: u16, v: u16) {
        put(&mut self.noted, area as usize + i as usize, v);
    }

    fn has(&self, area: Area, i: u16) -> bool {
        self.at(area, i) != 0
    }

    // Draws an event, which happens where it is allowed.
    fn grow(&mut self, seed: &mut Seed, s: Shape) -> Option<Event> {
        let task = seed.draw_word(s.tasks);
        let kind = draw_kind(seed, s.edition);
        let objects = objects_for(kind, s);
        let object = seed.draw_word(objects);
        let event = Event { task, kind, object };
        if s.events <= self.events || objects == 0 || !self.allows(event) {
            return None;
        }
        self.note(event);
        Some(event)
    }

    fn allows(&self, e: Event) -> bool {
        let Event { task, kind, object } = e;
        let other = object != task;
        let forked = self.has(Area::Forked, object);
        let late = self.has(Area::Late, task) && !self.has(Area::Forked, task);
        if late || self.has(Area::Joined, task) {
            return false;
        }
        match kind {
            Kind::Wait => self.has(Area::Stock, object),
            Kind::Fork => other && !forked && !self.has(Area::Seen, object),
            Kind::Join => other && forked && !self.has(Area::Joined, object),
            Kind::FlagWait => !self.has(Area::Lack, object),
            _ => true,
        }
    }

    fn note(&mut self, e: Event) {
        self.events = self.events.wrapping_add(1);
        self.put(Area::Seen, e.task, 1);
        let stock = self.at(Area::Stock, e.object);
        let lack = self.at(Area::Lack, e.object);
        match e.kind {
            Kind::Signal => self.put(Area::Stock, e.object, stock.wrapping_add(1)),
            Kind::Wait => self.put(Area::Stock, e.object, stock.saturating_sub(1)),
            Kind::Fork => self.put(Area::Forked, e.object, 1),
            Kind::Join => self.put(Area::Joined, e.object, 1),
            Kind::Post => self.put(Area::Lack, e.object, lack.saturating_sub(1)),
            _ => {}
        }
    }
}

// ---- levels

// How many start bytes a recording has.
fn starts_in(s: Shape) -> u16 {
    if s.edition == 1 { 0 } else { s.semaphores }
}

// 0, 1, 4, 255, or a small number.
fn draw_start(seed: &mut Seed) -> u8 {
    match seed.draw(7) {
        0 => 0,
        1 => 1,
        2 => 4,
        3 => 255,
        _ => seed.draw(7) as u8,
    }
}

// Mostly 1 or 2, so that flags open; 255, or up to 4.
fn draw_post(seed: &mut Seed) -> u8 {
    match seed.draw(8) {
        0 => 255,
        1 => seed.draw(4) as u8 + 1,
        2 | 3 | 4 => 2,
        _ => 1,
    }
}

// Draws n start counts or post counts, which are what is there of them before the first event.
fn draw_levels<F: FnMut(&mut Seed) -> u8>(
    life: &mut Life,
    seed: &mut Seed,
    counts: Area,
    left: Area,
    n: u16,
    mut draw: F,
)
    requires { F.IsAlwaysCallable draw }
{
    for i in 0..n {
        let level = u16::from(draw(seed));
        life.put(counts, i, level);
        life.put(left, i, level);
    }
}

// Puts n start counts or post counts.
fn put_levels<const N: usize>(file: &mut Bytes<N>, life: &Life, counts: Area, n: u16)
    ensures { file.new.length ≤ file.old.length + n }
{
    for i in 0..n {
        file.push((life.at(counts, i) % 256) as u8);
    }
}

// ---- files

// What is there before the first event; two of five tasks but the first wait for a fork.
fn draw_life(seed: &mut Seed, s: Shape) -> Life {
    let mut life = Life {
        events: 0,
        noted: [0; 512],
    };
    for task in 1..s.tasks {
        let late = seed.draw(5) < 2;
        life.put(Area::Late, task, u16::from(late));
    }
    let starts = starts_in(s);
    draw_levels(
        &mut life,
        seed,
        Area::Starts,
        Area::Stock,
        starts,
        draw_start,
    );
    draw_levels(&mut life, seed, Area::Posts, Area::Lack, s.flags, draw_post);
    life
}

// A recording of at most the shape's events. Reading accepts it where the shape's counts are those of a recording.
pub fn make<const N: usize>(seed: &mut Seed, s: Shape) -> Bytes<N>
    ensures { 16 ≤ result.length }
{
    let mut life = draw_life(seed, s);
    let mut file = Bytes::new();
    put_preamble(&mut file, s.preamble);
    for i in 0..s.events as u32 * 3 {
        if let Some(event) = life.grow(seed, s) {
            file.extend(&event.record().bytes());
        }
    }
    put_levels(&mut file, &life, Area::Starts, starts_in(s));
    put_levels(&mut file, &life, Area::Posts, s.flags);
    put_trailer(&mut file, s.preamble as u32, life.events as u32, s);
    file
}

// ---- damage

// Another byte so many from the end of the file, where there is one.
pub fn damage_byte(file: &mut [u8], back: u32, value: u8)
    ensures { length file.new ≡ length file.old }
{
    if let Some(b) = file.iter_mut().rev().nth(back as usize) {
        *b = value;
    }
}

// Another byte somewhere in the file, in its trailer or just before that, another record, or another length.
pub fn damage<const N: usize>(seed: &mut Seed, s: Shape, file: &mut Bytes<N>)
    ensures { file.new.length ≤ file.old.length + 8 }
{
    let all = file.length;
    file.length = damage_some(seed, s, file.room(), all);
}

// The same of the bytes of a file of this length; its length then.
fn damage_some(seed: &mut Seed, s: Shape, file: &mut [u8], all: usize) -> usize
    ensures { result ≤ all + 8 }
{
    let size = (all % 65536) as u32;
    let what = seed.draw(5);
    let value = seed.draw(256) as u8;
    match what {
        0 => damage_byte(file, seed.draw(size), value),
        1 => damage_byte(file, seed.draw(16), value),
        2 => damage_byte(file, seed.draw(8) + 16, value % 6),
        3 => damage_record(seed, s, file),
        _ => return seed.draw(size + 8) as usize,
    }
    all
}

// Another record, of a kind that may be none.
fn damage_record(seed: &mut Seed, s: Shape, file: &mut [u8]) {
    let record = Record {
        task: seed.draw_word(s.tasks),
        kind: seed.draw_word(kinds_in(s.edition) + 3),
        object: seed.draw_word(6),
    };
    put_record(file, place(s.preamble, seed.draw_word(s.events)), record);
}
