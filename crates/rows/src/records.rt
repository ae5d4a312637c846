// The form of a file: records and their names, the preamble and the trailer.
ghost use Rattle.std.specs.Prelude.{◌≡◌, ◌+◌, ◌*◌, ◌%◌, ◌^◌, ◌≤◌, IfSome, length};

use crate::bytes::{Bytes, at, part_of, put_all};

// How large a recording may be: its preamble and events, and its counts; and its edition, a number, as rows ask
// for editions that there are not.
#[derive(Clone, Copy)]
pub struct Shape {
    pub preamble: u16,
    pub events: u16,
    pub tasks: u16,
    pub semaphores: u16,
    pub flags: u16,
    pub cells: u16,
    pub edition: u16,
}

// ---- records

// The kinds of an event.
#[derive(Clone, Copy, PartialEq)]
pub enum Kind {
    Signal = 1,
    Wait = 2,
    Fork = 3,
    Join = 4,
    Read = 5,
    Write = 6,
    Post = 7,
    FlagWait = 8,
    SingleRead = 9,
    SingleWrite = 10,
}

// A record that is to be written: its kind is a number, as it may be none of the kinds. Of a task or a kind past a
// byte the low byte is written.
#[derive(Clone, Copy)]
pub struct Record {
    pub task: u16,
    pub kind: u16,
    pub object: u16,
}

impl Record {
    pub fn bytes(self) -> [u8; 4]
        ensures { length result ≡ 4 }
    {
        let [low, high] = self.object.to_le_bytes();
        [(self.task % 256) as u8, (self.kind % 256) as u8, low, high]
    }
}

impl Kind {
    // The kind of this number, where there is one.
    pub fn numbered(n: u8) -> Option<Kind>
        ensures { IfSome result (λ kind. n ≤ 10) }
    {
        let kind = match n {
            1 => Kind::Signal,
            2 => Kind::Wait,
            3 => Kind::Fork,
            4 => Kind::Join,
            5 => Kind::Read,
            6 => Kind::Write,
            7 => Kind::Post,
            8 => Kind::FlagWait,
            9 => Kind::SingleRead,
            10 => Kind::SingleWrite,
            _ => return None,
        };
        Some(kind)
    }
}

// The place of record n after a preamble.
pub fn place(preamble: u16, n: u16) -> usize
    ensures exact { result ≡ preamble + 4 * n }
    ensures bound { result ≤ 327675 }
{
    preamble as usize + n as usize * 4
}

pub fn put_record(file: &mut [u8], i: usize, r: Record)
    ensures { length file.new ≡ length file.old }
{
    put_all(file, i, &r.bytes());
}

// Record e; empty where there is none.
pub fn record_at(records: &[u8], e: u16) -> &[u8]
    ensures { length result.now ≤ 4 }
{
    let from = place(0, e);
    part_of(records, from, from + 4)
}

// The object of record e.
pub fn object_of(records: &[u8], e: u16) -> u16
    ensures { length records.now ≤ 4 * e → result ≡ 0 }
{
    let i = place(0, e);
    u16::from_le_bytes([at(records, i + 2), at(records, i + 3)])
}

// What names an event: its task, and which of that task's events it is, from 1 on.
#[derive(Clone, Copy, Default, PartialEq, Eq, PartialOrd, Ord)]
pub struct Name {
    pub task: u16,
    pub position: u16,
}

// The names of as many events as are asked for.
pub fn name_events(records: &[u8], names: &mut [Name])
    ensures { length names.new ≡ length names.old }
{
    let mut counts = [0u16; 256];
    for (e, name) in names.iter_mut().enumerate() {
        let task = at(records, e.wrapping_mul(4));
        let position = counts[task as usize] % 1024 + 1;
        counts[task as usize] = position;
        *name = Name {
            task: (task % 16) as u16,
            position,
        };
    }
}

// ---- preamble and trailer

// So many bytes before the first record, which differ from a record's.
pub fn put_preamble<const N: usize>(file: &mut Bytes<N>, start: u16)
    ensures { file.new.length ≤ file.old.length + start }
{
    for i in 0..start {
        file.push(90);
    }
}

// The trailer's field for semaphores and flags.
pub fn field_of(s: Shape) -> u16
    ensures { s.flags ≡ 0 → result ≡ s.semaphores }
{
    if s.flags == 0 {
        return s.semaphores;
    }
    s.flags % 256 * 256 + s.semaphores % 256
}

// The trailer behind what is written.
pub fn put_trailer<const N: usize>(file: &mut Bytes<N>, start: u32, n: u32, s: Shape)
    ensures { file.new.length ≡ (file.old.length + 16) % 2 ^ 64 }
{
    file.extend(&start.to_le_bytes());
    file.extend(&n.to_le_bytes());
    for count in [s.tasks, field_of(s), s.cells, s.edition] {
        file.extend(&count.to_le_bytes());
    }
}
