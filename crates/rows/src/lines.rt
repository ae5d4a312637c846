// The lines of an input, one after the other: its rows are tried, groups and rows are counted, and what
// was counted in a group is said at its end.
ghost use Rattle.std.specs.Prelude.{◌≡◌, ◌+◌, ◌%◌, ◌^◌, ◌≤◌, IfSome, length};

use crate::tally::{Tally, Trial};
use crate::text::word;

// How far the rows have been tried: the group's name, its rows and those before it, and lines.
#[derive(Clone, Copy)]
pub struct Progress<'a> {
    name: &'a [u8],
    pub rows: u32,
    pub before: u32,
    lines: u32,
}

// The name on a line that names a group.
fn name_on(line: &[u8]) -> Option<&[u8]>
    ensures { IfSome result (λ name. length name.now ≤ length line.now) }
{
    if line.first() != Some(&b'=') {
        return None;
    }
    Some(line.get(2..).unwrap_or_default())
}

// The row on a line that names no group and has more than a comment.
pub fn row_on(line: &[u8]) -> Option<&[u8]>
    ensures { IfSome result (λ row. length row.now ≤ length line.now) }
{
    let row = line.split(|c| *c == b'#').nth(0).unwrap_or_default();
    if row.first() == Some(&b'=') || word(row, 0).is_empty() {
        return None;
    }
    Some(row)
}

impl<'a> Progress<'a> {
    pub fn new() -> Progress<'a>
        ensures { result.before + result.rows ≡ 0 }
    {
        Progress {
            name: b"",
            rows: 0,
            before: 0,
            lines: 0,
        }
    }

    // What the group's rows counted, said at its end.
    fn end_group(&mut self, trial: &mut Trial)
        ensures counted { self.new.before ≡ (self.old.before + self.old.rows) % 2 ^ 32 }
        ensures said { trial.new.tally.wrong ≡ 0 }
    {
        if self.rows != 0 {
            trial.log.write(self.name);
            trial
                .log
                .print(format_args!(": rows {}, {}", self.rows, trial.tally));
        }
        trial.tally = Tally::default();
        self.before = self.before.wrapping_add(self.rows);
        self.rows = 0;
    }

    // Tries the row on a line, if any; one that differs is said.
    fn try_line<F: Fn(&mut Trial, &[u8])>(&mut self, trial: &mut Trial, line: &'a [u8], try_row: &F)
        requires { F.IsAlwaysCallable try_row.now }
    {
        self.lines = self.lines.wrapping_add(1);
        if let Some(name) = name_on(line) {
            self.end_group(trial);
            self.name = name;
        }
        if let Some(row) = row_on(line) {
            let wrong = trial.tally.wrong;
            try_row(trial, row);
            self.rows = self.rows.wrapping_add(1);
            if wrong < trial.tally.wrong {
                trial.log.write(row);
                trial
                    .log
                    .print(format_args!(" <- differs, line {}\n", self.lines));
            }
        }
    }

    // Says what the last group counted and how many rows there were, and answers that number.
    pub fn finish(&mut self, trial: &mut Trial) -> u32
        ensures counted { result ≡ (self.old.before + self.old.rows) % 2 ^ 32 }
        ensures said { trial.new.tally.wrong ≡ 0 }
    {
        self.end_group(trial);
        trial.log.print(format_args!("rows {}\n", self.before));
        self.before
    }
}

// Tries each row of a text, and says what was counted; how many rows there were.
pub fn try_rows<F: Fn(&mut Trial, &[u8])>(trial: &mut Trial, text: &[u8], try_row: &F) -> u32
    requires { F.IsAlwaysCallable try_row.now }
    ensures { trial.new.tally.wrong ≡ 0 }
{
    let mut progress = Progress::new();
    for line in text.split(|c| *c == b'\n') {
        progress.try_line(trial, line, try_row);
    }
    progress.finish(trial)
}
