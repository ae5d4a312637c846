// Reading a file: its trailer, or its refusal, and the parts of it.
ghost use Rattle.std.specs.Prelude.{◌≡◌, ◌+◌, ◌≤◌, ◌<◌, length};
ghost use Rattle.model.specs.File.{u32_at, trailer_of};
ghost use Rattle.model.specs.Reading.{reading_of, preamble_of, records_of, starts_of, posts_of};
ghost use Rattle.recording.specs.Parts.{level_part};

use model::{Counts, Refusal, Trailer};
use rules::{first_fault, in_range, known_edition, posts_up};

// The number of four bytes, little-endian.
fn u32_at(s: &[u8], i: usize) -> usize
    requires { i + 3 < length s.now }
    ensures { (result ≡ u32_at s.now i) × (result < 4294967296) }
{
    (events::u16_at(s, i) as usize) + 65536 * (events::u16_at(s, i + 2) as usize)
}

fn trailer_of(file: &[u8]) -> Trailer
    requires { 16 ≤ length file.now }
    ensures { (result ≡ trailer_of file.now) × (result.start < 4294967296) × (result.records < 4294967296) }
{
    let t = file.len() - 16;
    Trailer {
        start: u32_at(file, t),
        records: u32_at(file, t + 4),
        counts: Counts {
            tasks: events::u16_at(file, t + 8),
            semaphores: events::u16_at(file, t + 10),
            cells: events::u16_at(file, t + 12),
            edition: events::u16_at(file, t + 14),
        },
    }
}

// Reads a file: its trailer, or the first refusal of the table.
pub fn read(file: &[u8]) -> Result<Trailer, Refusal>
    ensures { result ≡ reading_of file.now }
{
    if file.len() < 16 {
        return Err(Refusal::Short);
    }
    let t = file.len() - 16;
    let h = trailer_of(file);
    let counts = h.counts;
    if !known_edition(counts) {
        return Err(Refusal::Edition);
    }
    let level_bytes = events::level_count(counts);
    if h.start + 4 * h.records + level_bytes != t {
        return Err(Refusal::Extent);
    }
    if !in_range(counts, h.records) {
        return Err(Refusal::Count);
    }
    let levels = events::levels_of(file, h);
    if !posts_up(events::post_bytes(levels, counts)) {
        return Err(Refusal::Count);
    }
    first_fault(events::records_of(file, h), counts, levels, h.records)?;
    Ok(h)
}

// The part of the file before the first record; of a refused file, the empty part.
pub fn preamble(file: &[u8]) -> &[u8]
    ensures { result.now ≡ preamble_of file.now }
{
    match read(file) {
        Ok(h) => {
            let start = h.start;
            &file[..start]
        }
        Err(_) => &file[..0],
    }
}

// The records' part of the file; of a refused file, the empty part.
pub fn records(file: &[u8]) -> &[u8]
    ensures { result.now ≡ records_of file.now }
{
    match read(file) {
        Ok(h) => events::records_of(file, h),
        Err(_) => &file[..0],
    }
}

// The level bytes of the file: start bytes, then post bytes; of a refused file, none.
fn levels(file: &[u8]) -> &[u8]
    ensures { result.now ≡ level_part file.now }
{
    match read(file) {
        Ok(h) => events::levels_of(file, h),
        Err(_) => &file[..0],
    }
}

// The counts in the file's trailer; where there is none, all 0.
fn counts_of(file: &[u8]) -> Counts
    ensures { 16 ≤ length file.now → result ≡ (trailer_of file.now).counts }
{
    if file.len() < 16 {
        return Counts {
            tasks: 0,
            semaphores: 0,
            cells: 0,
            edition: 0,
        };
    }
    let h = trailer_of(file);
    h.counts
}

// The start bytes of the file, one for each semaphore; of a refused file, as of edition 1, the empty part.
pub fn starts(file: &[u8]) -> &[u8]
    ensures { result.now ≡ starts_of file.now }
{
    events::start_bytes(levels(file), counts_of(file))
}

// The post bytes of the file, one for each flag; of a refused file, as of editions 1 and 2, the empty part.
pub fn posts(file: &[u8]) -> &[u8]
    ensures { result.now ≡ posts_of file.now }
{
    events::post_bytes(levels(file), counts_of(file))
}
