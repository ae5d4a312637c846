// Comparisons counted, and what is printed of them.
ghost use Rattle.std.specs.Prelude.{◌≡◌, ◌≤◌};

use crate::log::Log;
use std::fmt::{Display, Formatter, Write};
use std::io::Stdout;
use std::{fmt, io};

// How many comparisons were made and how many failed; and what they met.
#[derive(Clone, Copy, Default)]
pub struct Tally {
    pub total: u32,
    pub wrong: u32,
    pub written: u32,
    pub unsure: u32,
    pub one_sided: u32,
    pub differing: u32,
    pub leading: u32,
    pub neither: u32,
    pub unfit: u32,
}

// What a comparison met: a recording written that shows a pair reversed, a pair refused by 15, a pair that one
// of two recordings alone makes sure, recordings that differ at a position, and of two stretches that one is
// before the other, that neither is, and a refusal by 17.
#[derive(Clone, Copy)]
pub enum Met {
    Written,
    Unsure,
    OneSided,
    Differing,
    Leading,
    Neither,
    Unfit,
}

// A line for a number that is not 0.
fn line<W: Write>(f: &mut Formatter<W>, met: &str, n: u32) -> fmt::Result {
    if n == 0 {
        return Ok(());
    }
    writeln!(f, "  {met} {n}")
}

impl Display for Tally {
    fn fmt<W: Write>(&self, f: &mut Formatter<W>) -> fmt::Result {
        let total = self.total;
        writeln!(f, "comparisons {total}")?;
        line(f, "recordings written", self.written)?;
        line(f, "refused by 15", self.unsure)?;
        line(f, "pairs sure in one alone", self.one_sided)?;
        line(f, "that differ at a position", self.differing)?;
        line(f, "one before the other", self.leading)?;
        line(f, "neither before the other", self.neither)?;
        line(f, "refused by 17", self.unfit)?;
        line(f, "DIFFERENCES", self.wrong)
    }
}

// Bytes in hex.
#[derive(Clone, Copy)]
struct Hex<'a>(&'a [u8]);

impl Display for Hex<'_> {
    fn fmt<W: Write>(&self, f: &mut Formatter<W>) -> fmt::Result {
        for b in self.0 {
            write!(f, "{b:02x}")?;
        }
        Ok(())
    }
}

fn add(count: &mut u32, n: u32) {
    *count = count.wrapping_add(n);
}

// What is counted, and where the differences are printed.
#[derive(Drop)]
pub struct Trial {
    pub tally: Tally,
    pub log: Log,
}

impl Trial {
    pub fn new(to: Stdout) -> Trial
        ensures { result.tally.wrong ≡ 0 }
    {
        Trial {
            tally: Tally::default(),
            log: Log::new(to),
        }
    }

    // Counts a comparison of two files, and shows both where it failed. A difference once counted stays counted.
    pub fn count_both(&mut self, agrees: bool, one: &[u8], two: &[u8])
        ensures { self.old.tally.wrong ≤ self.new.tally.wrong }
    {
        self.tally.total = self.tally.total.wrapping_add(1);
        if !agrees {
            self.tally.wrong = self.tally.wrong.saturating_add(1);
            self.log.print(format_args!("differs {}\n", Hex(one)));
            self.log.print(format_args!("differs {}\n", Hex(two)));
        }
    }

    // Counts a comparison of one file.
    pub fn count(&mut self, agrees: bool, file: &[u8])
        ensures { self.old.tally.wrong ≤ self.new.tally.wrong }
    {
        self.count_both(agrees, file, b"");
    }

    // So many more of what was met.
    pub fn meet(&mut self, what: Met, n: u32)
        ensures { self.old.tally.wrong ≡ self.new.tally.wrong }
    {
        let t = &mut self.tally;
        match what {
            Met::Written => add(&mut t.written, n),
            Met::Unsure => add(&mut t.unsure, n),
            Met::OneSided => add(&mut t.one_sided, n),
            Met::Differing => add(&mut t.differing, n),
            Met::Leading => add(&mut t.leading, n),
            Met::Neither => add(&mut t.neither, n),
            Met::Unfit => add(&mut t.unfit, n),
        }
    }

    pub fn end(self) -> io::Result<()>
        ensures { result ≡ self.log.written }
    {
        let Trial { tally: _, log } = self;
        log.end()
    }
}
