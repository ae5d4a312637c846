// The bytes of a recording file put into an output: records, level bytes, trailer. The records are lent as they stand, or picked from
// others in a given order. A crate of its own, since more than one interface crate writes files, and these functions require the room
// that those have asked for.
#![tactic(auto)]

ghost use Rattle.std.specs.Prelude.{◌≡◌, ◌++◌, ◌+◌, ◌*◌, ◌/◌, ◌≤◌, length, take, drop};
ghost use Rattle.model.specs.Writing.{trailer_bytes, file_of, file_length, record_at, records_in, file_in};
ghost use Rattle.layout.specs.Picks.{Picks};

use model::Counts;

// The trailer of a file with start 0, n records and these counts.
fn trailer_bytes(n: usize, counts: Counts) -> [u8; 16]
    ensures { result ≡ trailer_bytes n counts }
{
    let records = n.to_le_bytes();
    let tasks = counts.tasks.to_le_bytes();
    let semaphores = counts.semaphores.to_le_bytes();
    let cells = counts.cells.to_le_bytes();
    let edition = counts.edition.to_le_bytes();
    [
        0, // start
        0,
        0,
        0,
        records[0],
        records[1],
        records[2],
        records[3],
        tasks[0],
        tasks[1],
        semaphores[0],
        semaphores[1],
        cells[0],
        cells[1],
        edition[0],
        edition[1],
    ]
}

// Copies the bytes into the output from `at` on.
pub fn copy_at(bytes: &[u8], out: &mut [u8], at: usize)
    requires { at + length bytes.now ≤ length out.old }
    ensures { out.new ≡ take at out.old ++ bytes.now ++ drop (at + length bytes.now) out.old }
{
    out[at..at + bytes.len()].copy_from_slice(bytes);
}

// Writes the level bytes and the trailer behind n record bytes.
fn put_end(n: usize, counts: Counts, levels: &[u8], out: &mut [u8])
    requires { n + length levels.now + 16 ≤ length out.old }
    ensures { out.new ≡ take n out.old ++ levels.now ++ trailer_bytes (n / 4) counts
        ++ drop (n + length levels.now + 16) out.old }
{
    let stop = n + levels.len();
    copy_at(levels, out, n);
    let end = trailer_bytes(n / 4, counts);
    copy_at(&end, out, stop);
}

// Writes the file of these records into the front of the output.
pub fn put_file(records: &[u8], counts: Counts, levels: &[u8], out: &mut [u8])
    requires { file_length records.now levels.now ≤ length out.old }
    ensures { out.new ≡ file_of records.now counts levels.now
        ++ drop (file_length records.now levels.now) out.old }
{
    copy_at(records, out, 0);
    put_end(records.len(), counts, levels, out);
}

// Copies record e into the output as its record i.
fn put_record(records: &[u8], e: usize, out: &mut [u8], i: usize)
    requires { (4 * e + 4 ≤ length records.now) × (4 * i + 4 ≤ length out.old) }
    ensures { out.new ≡ take (4 * i) out.old ++ record_at records.now e ++ drop (4 * i + 4) out.old }
{
    let from = 4 * e;
    let to = 4 * i;
    copy_at(&records[from..from + 4], out, to);
}

// Writes the records that the order names, one after another, into the front of the output.
fn put_records(records: &[u8], order: &[u16], out: &mut [u8])
    requires { Picks records.now order.now × (4 * length order.now ≤ length out.old) }
    ensures { out.new ≡ records_in records.now order.now ++ drop (4 * length order.now) out.old }
{
    for (i, e) in order.iter().enumerate() {
        put_record(records, *e as usize, out, i);
    }
}

// Writes the file of the records that the order names, in its order, into the front of the output.
pub fn put_picked(records: &[u8], order: &[u16], counts: Counts, levels: &[u8], out: &mut [u8])
    requires { Picks records.now order.now × (4 * length order.now + length levels.now + 16 ≤ length out.old) }
    ensures { out.new ≡ file_in records.now order.now counts levels.now
        ++ drop (4 * length order.now + length levels.now + 16) out.old }
{
    put_records(records, order, out);
    put_end(4 * order.len(), counts, levels, out);
}
