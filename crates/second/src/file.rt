// A file: its trailer, its parts, and how it is put together.
ghost use Rattle.second.specs.Refusals.{RefusesUpTo};

use crate::memory::part_of;
use crate::{Counts, Fault, Parts, Reading};

// What the trailer of a recording says, and the parts that this makes.
#[derive(Clone, Copy)]
pub(crate) struct Recording<'a> {
    pub(crate) reading: Reading,
    pub(crate) parts: Parts<'a>,
}

// How many semaphores and flags a trailer counts, and how many start bytes that makes.
#[derive(Clone, Copy)]
struct Levels {
    semaphores: u16,
    flags: u16,
    starts: u16,
}

impl Counts {
    // What the semaphore field of the edition counts: in edition 3 its low byte semaphores, its high byte flags.
    fn levels(&self) -> Levels {
        let field = self.semaphores;
        let [low, high] = field.to_le_bytes();
        let (semaphores, flags) = match self.edition {
            3 => (low as u16, high as u16),
            _ => (field, 0),
        };
        Levels {
            semaphores,
            flags,
            starts: if self.edition == 1 { 0 } else { semaphores },
        }
    }

    // The reading of these counts, with n records from a start on; or refusal 2, 3 where the extent is not
    // met, or 4.
    fn reading(&self, start: usize, n: usize, met: bool) -> Result<Reading, Fault>
        ensures { RefusesUpTo 4 result }
    {
        let levels = self.levels();
        if self.edition < 1 || 3 < self.edition {
            return Err(Fault::Edition);
        }
        if !met {
            return Err(Fault::Extent);
        }
        let few = self.tasks < 1 || 16 < self.tasks || 1024 < self.cells;
        if few || 64 < levels.semaphores || 64 < levels.flags || 1024 < n {
            return Err(Fault::Count);
        }
        Ok(Reading {
            start,
            events: n as u16,
            tasks: self.tasks,
            semaphores: levels.semaphores,
            flags: levels.flags,
            cells: self.cells,
            edition: self.edition,
            starts: levels.starts,
        })
    }
}

impl Reading {
    // 2 × N × T.
    pub(crate) fn work_needed(&self) -> usize {
        2 * self.events as usize * self.tasks as usize
    }

    // The parts of a file that was read so.
    fn parts_of<'a>(&self, file: &'a [u8]) -> Parts<'a> {
        let end = self.start.wrapping_add(self.events as usize * 4);
        let mid = end.wrapping_add(self.starts as usize);
        Parts {
            records: part_of(file, self.start, end),
            starts: part_of(file, end, mid),
            posts: part_of(file, mid, mid.wrapping_add(self.flags as usize)),
        }
    }

    // The trailer, with start 0.
    fn trailer(&self) -> [u8; 16] {
        let [n, m] = self.events.to_le_bytes();
        let [tasks, _] = self.tasks.to_le_bytes();
        let [semaphores, _] = self.semaphores.to_le_bytes();
        let [flags, _] = self.flags.to_le_bytes();
        let [c, d] = self.cells.to_le_bytes();
        let [edition, _] = self.edition.to_le_bytes();
        [
            0, 0, 0, 0, n, m, 0, 0, tasks, 0, semaphores, flags, c, d, edition, 0,
        ]
    }
}

impl<'a> Recording<'a> {
    // What the trailer of a file says, or refusals 1 to 4.
    pub(crate) fn of(file: &'a [u8]) -> Result<Recording<'a>, Fault>
        ensures { RefusesUpTo 4 result }
    {
        let Some((front, bytes)) = file.split_last_chunk::<16>() else {
            return Err(Fault::Short);
        };
        let [
            s0,
            s1,
            s2,
            s3,
            n0,
            n1,
            n2,
            n3,
            t0,
            t1,
            l0,
            l1,
            c0,
            c1,
            e0,
            e1,
        ] = *bytes;
        let start = u32::from_le_bytes([s0, s1, s2, s3]) as usize;
        let n = u32::from_le_bytes([n0, n1, n2, n3]) as usize;
        let counts = Counts {
            tasks: u16::from_le_bytes([t0, t1]),
            semaphores: u16::from_le_bytes([l0, l1]),
            cells: u16::from_le_bytes([c0, c1]),
            edition: u16::from_le_bytes([e0, e1]),
        };
        let levels = counts.levels();
        let end = start + 4 * n + levels.starts as usize + levels.flags as usize;
        let reading = counts.reading(start, n, end == front.len())?;
        let parts = reading.parts_of(file);
        if parts.posts.contains(&0) {
            return Err(Fault::Count);
        }
        Ok(Recording { reading, parts })
    }

    // A recording that is to be written, with start 0; or refusals 2 to 4 and 13.
    pub(crate) fn made(parts: Parts<'a>, counts: &Counts) -> Result<Recording<'a>, Fault>
        ensures { RefusesUpTo 13 result }
    {
        let (records, rest) = parts.records.as_chunks::<4>();
        let reading = counts.reading(0, records.len(), rest.is_empty())?;
        if parts.posts.contains(&0) {
            return Err(Fault::Count);
        }
        let starts = parts.starts.len() == reading.starts as usize;
        if !starts || parts.posts.len() != reading.flags as usize {
            return Err(Fault::Starts);
        }
        Ok(Recording { reading, parts })
    }

    // The length of its file without a preamble.
    pub(crate) fn length(&self) -> usize {
        let r = self.reading;
        r.events as usize * 4 + r.starts as usize + r.flags as usize + 16
    }

    // Puts the records, the start bytes, the post bytes and the trailer.
    pub(crate) fn put(&self, out: &mut [u8]) {
        let trailer = self.reading.trailer();
        let Parts {
            records,
            starts,
            posts,
        } = self.parts;
        let bytes = records.iter().chain(starts).chain(posts).chain(&trailer);
        for (slot, byte) in out.iter_mut().zip(bytes) {
            *slot = *byte;
        }
    }
}
