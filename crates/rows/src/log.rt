// Where the trials print: the standard output, and the first error that a write to it gave.
ghost use Rattle.std.specs.Prelude.{◌≡◌, OnErr, IsOk};

use std::fmt::Display;
use std::io;
use std::io::Stdout;

// Once a write has failed nothing more is written, and `end` says so.
#[derive(Drop)]
pub struct Log {
    to: Stdout,
    pub written: io::Result<()>,
}

impl Log {
    pub fn new(to: Stdout) -> Log
        ensures { IsOk result.written }
    {
        Log {
            to,
            written: Ok(()),
        }
    }

    pub fn write(&mut self, text: &[u8])
        ensures { OnErr self.old.written (self.new ≡ self.old) }
    {
        if self.written.is_ok() {
            self.written = self.to.write_all(text);
        }
    }

    pub fn print<D: Display + Drop>(&mut self, value: D)
        ensures { OnErr self.old.written (self.new ≡ self.old) }
    {
        if self.written.is_ok() {
            self.written = self.to.print(value);
        }
    }

    pub fn end(self) -> io::Result<()>
        ensures { result ≡ self.written }
    {
        self.written
    }
}
