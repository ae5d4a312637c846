// The lines that should be printed of a file, from what the second analyser answers, and those that the
// library prints.
ghost use Rattle.std.specs.Prelude.{◌≤◌};

use rows::bytes::{Bytes, Marked, at, part_of, product};
use rows::records::object_of;
use rows::tally::Trial;
use std::fmt;
use std::fmt::Write;

// Writes the lines of a file.
fn write_lines(file: &[u8], lines: &mut Bytes<4096>) -> fmt::Result {
    let mut work = [0u16; 32768];
    let mut list = [0u16; 24576];
    let r = second::trailer(file).unwrap_or_default();
    let square = (product(r.events, r.events) % 4294967295) as u32;
    let done = match second::analyse(file, square + 1, &mut work, &mut list) {
        Ok(done) => done,
        Err(fault) => {
            let record = fault.record().unwrap_or(0);
            return writeln!(lines, "refused {} {record}", fault.number());
        }
    };
    let settled = if done.settled { "yes" } else { "no" };
    writeln!(
        lines,
        "events {} tasks {} passes {} settled {settled} pairs {}",
        r.events, r.tasks, done.passes, done.pairs
    )?;
    let records = part_of(file, r.start, file.len());
    for entry in part_of(&list, 0, done.pairs as usize * 3).chunks_exact(3) {
        write_entry(records, entry, lines)?;
    }
    Ok(())
}

// The line of an entry of the list.
fn write_entry(records: &[u8], entry: &[u16], lines: &mut Bytes<4096>) -> fmt::Result {
    let lower = at(entry, 0);
    let higher = at(entry, 1);
    let cell = object_of(records, lower);
    let mark = if at(entry, 2) == 1 { "sure" } else { "open" };
    writeln!(lines, "cell {cell} {lower} {higher} {mark}")
}

// Puts what the library prints, and answers how many bytes that has.
fn put_report(file: &[u8], out: &mut [u8]) -> usize {
    let mut work = [0u16; 32768];
    let mut list = [0u16; 24576];
    report::report(file, &mut work, &mut list, out)
}

// The library prints the lines of a file, as far as the output has room, and leaves the rest as it was.
fn printing_agrees(file: &[u8]) -> bool {
    let mut lines = Bytes::<4096>::new();
    let mut out = [u8::MARK; 4096];
    let n = put_report(file, &mut out);
    write_lines(file, &mut lines).is_ok()
        && n == lines.length.min(4096)
        && part_of(&out, 0, n) == lines.room()
        && part_of(&out, n, 4096).iter().all(|b| *b == u8::MARK)
}

// What is printed of a file.
pub fn try_printing(trial: &mut Trial, file: &[u8])
    ensures { trial.old.tally.wrong ≤ trial.new.tally.wrong }
{
    trial.count(printing_agrees(file), file);
}

// The library prints this text.
pub fn try_text(trial: &mut Trial, file: &[u8], text: &[u8])
    ensures { trial.old.tally.wrong ≤ trial.new.tally.wrong }
{
    let mut out = [0u8; 4096];
    let n = put_report(file, &mut out);
    trial.count(part_of(&out, 0, n) == text, file);
}
