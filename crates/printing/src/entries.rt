// The lines of the entries, from record bytes and the numbers of a list.
ghost use Rattle.std.specs.Prelude.{◌+◌, ◌*◌, ◌≤◌, ◌<◌, ◌≡◌, length};
ghost use Rattle.model.specs.Numbers.{each};
ghost use Rattle.printing.specs.Output.{Put};
ghost use Rattle.printing.specs.Entries.{object_in, nth_line};

use crate::output::Output;

// The cell of an access.
fn cell_of(records: &[u8], access: u16) -> u16
    ensures { result ≡ object_in records.now access }
{
    let e = access as usize;
    if e < records.len() / 4 {
        let v = events::event_at(records, e);
        return v.object;
    }
    0
}

impl<'a> Output<'a> {
    fn nth(&mut self, records: &[u8], list: &[u16], i: usize)
        requires { 3 * i + 2 < length list.now }
        ensures put { Put self.old.bytes.now self.new.bytes.now self.old.at (nth_line records.now list.now i) self.new.at }
        ensures same_output { self.new.bytes.ghost_name ≡ self.old.bytes.ghost_name }
    {
        let k = 3 * i;
        let first = list[k];
        let cell = cell_of(records, first);
        self.entry(cell, first, list[k + 1], list[k + 2]);
    }

    pub fn entries(&mut self, records: &[u8], list: &[u16], pairs: usize)
        requires { 3 * pairs ≤ length list.now }
        ensures put { Put self.old.bytes.now self.new.bytes.now self.old.at (each (nth_line records.now list.now) pairs) self.new.at }
        ensures same_output { self.new.bytes.ghost_name ≡ self.old.bytes.ghost_name }
    {
        for i in 0..pairs {
            self.nth(records, list, i);
        }
    }
}
