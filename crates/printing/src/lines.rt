// The lines of the report.
ghost use Rattle.std.specs.Prelude.{◌≡◌, ◌++◌, eqb};
ghost use Rattle.model.specs.Text.{decimal};
ghost use Rattle.model.specs.Report.{result_line, entry_line, refusal_line, settled_word, mark_word};
ghost use Rattle.printing.specs.Output.{Put};

use crate::output::Output;
use model::{Analysis, Refusal};

impl<'a> Output<'a> {
    // A word and a number.
    fn field(&mut self, word: &[u8], n: usize)
        ensures put { Put self.old.bytes.now self.new.bytes.now self.old.at (word.now ++ decimal n) self.new.at }
        ensures same_output { self.new.bytes.ghost_name ≡ self.old.bytes.ghost_name }
    {
        self.text(word);
        self.number(n);
    }

    fn settled(&mut self, settled: bool)
        ensures put { Put self.old.bytes.now self.new.bytes.now self.old.at (settled_word settled) self.new.at }
        ensures same_output { self.new.bytes.ghost_name ≡ self.old.bytes.ghost_name }
    {
        self.text(if settled { b"yes" } else { b"no" });
    }

    fn mark(&mut self, mark: u16)
        ensures put { Put self.old.bytes.now self.new.bytes.now self.old.at (mark_word (eqb mark 1)) self.new.at }
        ensures same_output { self.new.bytes.ghost_name ≡ self.old.bytes.ghost_name }
    {
        self.text(if mark == 1 { b"sure" } else { b"open" });
    }

    pub fn result(&mut self, events: usize, tasks: u16, made: Analysis)
        ensures put { Put self.old.bytes.now self.new.bytes.now self.old.at
            (result_line events tasks made.passes made.settled made.pairs) self.new.at }
        ensures same_output { self.new.bytes.ghost_name ≡ self.old.bytes.ghost_name }
    {
        self.field(b"events ", events);
        self.field(b" tasks ", tasks as usize);
        self.field(b" passes ", made.passes as usize);
        self.text(b" settled ");
        self.settled(made.settled);
        self.field(b" pairs ", made.pairs);
        self.text(b"\n");
    }

    pub fn entry(&mut self, cell: u16, first: u16, second: u16, mark: u16)
        ensures put { Put self.old.bytes.now self.new.bytes.now self.old.at (entry_line cell first second mark) self.new.at }
        ensures same_output { self.new.bytes.ghost_name ≡ self.old.bytes.ghost_name }
    {
        self.field(b"cell ", cell as usize);
        self.field(b" ", first as usize);
        self.field(b" ", second as usize);
        self.text(b" ");
        self.mark(mark);
        self.text(b"\n");
    }

    pub fn refusal(&mut self, refusal: Refusal)
        ensures put { Put self.old.bytes.now self.new.bytes.now self.old.at (refusal_line refusal) self.new.at }
        ensures same_output { self.new.bytes.ghost_name ≡ self.old.bytes.ghost_name }
    {
        self.field(b"refused ", refusal.number() as usize);
        self.field(b" ", refusal.record());
        self.text(b"\n");
    }
}
