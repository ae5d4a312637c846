// Conflicts, race pairs and their marks, and the list, over record bytes and lent vectors.
#![tactic(auto)]

ghost use Rattle.std.specs.Prelude.{◌≡◌, [], ◌∷◌, ◌+◌, ◌*◌, ◌≤◌, ◌<◌, length};
ghost use Rattle.std.proofs.lemmas.List.Edits.{sets};
ghost use Rattle.model.specs.Recording.{event_in};
ghost use Rattle.model.specs.File.{recording_by, events_of};
ghost use Rattle.model.specs.Pairs.{conflict, race_pair, mark, pair_at, cell_entries, entries_in, entries};
ghost use Rattle.model.specs.Question.{relation_by};
ghost use Rattle.model.specs.Reading.{most_cells, most_tasks};
ghost use Rattle.passes.specs.Lent.{vectors_in, Numbered};
ghost use Rattle.passes.specs.Lookups.{vectors_of};
ghost use Rattle.events.specs.Chains.{Along};
ghost use Rattle.pairs.specs.Chains.{InChain};
ghost use Rattle.pairs.specs.Lent.{row_of, far, Laid, Width, WrittenList};
ghost use Rattle.pairs.specs.Listing.{by, fits, pairs_of};

use events::Linked;
use model::{Event, MOST_EVENTS, Relation};
use passes::EventVectors;

mod lent;

use lent::Listing;
pub use lent::PairVectors;

// Whether the two events access one cell, from different tasks, at least one writing, and not both by a single instruction.
pub fn conflict(v: Event, w: Event) -> bool
    ensures { result ≡ conflict v w }
{
    events::is_access(v)
        & events::is_access(w)
        & (v.object == w.object)
        & (v.task != w.task)
        & (events::is_write(v) | events::is_write(w))
        & !(events::is_single(v) & events::is_single(w))
}

// The mark of a pair: 1 where the recorded vectors do not order it, else 0.
pub fn mark(recorded: &EventVectors, a: usize, b: usize) -> u16
    requires { Numbered recorded.now.records.now a × Numbered recorded.now.records.now b }
    ensures { result ≡ mark (recording_by recorded.now.records.now recorded.now.counts []) (vectors_of recorded.now) a b }
{
    if recorded.unordered(a, b) { 1 } else { 0 }
}

// Writes the three numbers of an entry.
fn put_entry(out: &mut [u16], at: usize, a: u16, b: u16, mark: u16)
    requires { at + 3 ≤ length out.old }
    ensures { out.new ≡ sets out.old at (a ∷ b ∷ mark ∷ []) }
{
    out[at] = a;
    out[at + 1] = b;
    out[at + 2] = mark;
}

// A list has no room for its entries, which are this many.
#[derive(Clone, Copy)]
pub struct NoRoom {
    pub pairs: usize,
}

impl PairVectors<'_, '_> {
    // Whether a, which is the event v, and b are a race pair by the safe vectors.
    fn race_pair(&self, v: Event, a: usize, b: usize) -> bool
        requires { Numbered self.now.records.now a × Numbered self.now.records.now b × (v ≡ event_in (events_of self.now.records.now) a) }
        ensures { result ≡ race_pair (recording_by self.now.records.now self.now.counts []) (vectors_in self.now.records.now self.now.counts self.now.safe.now) a b }
    {
        let w = events::event_at(self.records, b);
        if !conflict(v, w) {
            return false;
        }
        let safe = self.by_safe();
        safe.unordered(a, b)
    }

    // Lists a, which is the event v, and b at place p, where they are a race pair: their entry is written where it has room. Answers
    // the place after it.
    fn list_pair(&self, v: Event, a: usize, b: usize, out: &mut [u16], p: usize) -> usize
        requires numbered { Numbered self.now.records.now a × Numbered self.now.records.now b × (v ≡ event_in (events_of self.now.records.now) a) }
        requires room { p ≤ 3 * far }
        ensures { Laid out.old p (by pair_at self.now a b) out.new result }
    {
        if !self.race_pair(v, a, b) {
            return p;
        }
        if p + 3 <= out.len() {
            let recorded = self.by_recorded();
            let m = mark(&recorded, a, b);
            put_entry(out, p, a as u16, b as u16, m);
        }
        p + 3
    }

    // The list along an order of the events. Each cell's accesses are gathered in a chain first, so that only they are looked at for
    // each other.
    fn list_in(&self, order: &[u16], width: usize, out: &mut [u16]) -> Result<usize, NoRoom>
        requires { Along self.now.records.now order.now × (self.now.counts.cells ≤ most_cells) × Width width }
        ensures { WrittenList width (by entries_in self.now order.now) out.old out.new (fits result) (pairs_of result) }
    {
        let chain = events::gather_in(self.records, order, self.counts.cells);
        let listing = Listing {
            vectors: *self,
            order,
            chain: &chain,
        };
        listing.write(width, out)
    }

    // Writes the list of the race pairs in task order, three numbers an entry, or leaves `out` as it was where it has no room for
    // `width` numbers an entry: a caller that will widen each entry in place asks for more than three. Answers how many they are.
    pub fn list(&self, width: usize, out: &mut [u16]) -> Result<usize, NoRoom>
        requires { (self.now.counts.tasks ≤ most_tasks) × (self.now.counts.cells ≤ most_cells) × Width width }
        ensures { WrittenList width (by entries self.now) out.old out.new (fits result) (pairs_of result) }
    {
        let order = events::task_order(self.records, self.counts.tasks);
        let n = self.records.len() / 4;
        self.list_in(&order[..n], width, out)
    }

    // How events a and b stand to each other.
    pub fn relation(&self, a: usize, b: usize) -> Relation
        requires { Numbered self.now.records.now a × Numbered self.now.records.now b }
        ensures { result ≡ by relation_by self.now a b }
    {
        let safe = self.by_safe();
        if safe.ordered(a, b) {
            return Relation::First;
        }
        if safe.ordered(b, a) {
            return Relation::Second;
        }
        let recorded = self.by_recorded();
        if recorded.unordered(a, b) {
            return Relation::Sure;
        }
        Relation::Open
    }
}

// Counting goes the way of listing: entries that have no room are not written, and the place after them tells how many they are.
impl Listing<'_, '_, '_> {
    // Lists the event at place i of the order, an access, with those behind it in its chain, from place p on. Answers the place after
    // their entries.
    fn list_row(&self, i: usize, out: &mut [u16], p: usize) -> usize
        requires { InChain self.now.vectors.records.now self.now.order.now self.now.vectors.counts.cells i × (p ≤ 2 * far) }
        ensures { Laid out.old p (by row_of self.now.vectors self.now.order.now i) out.new result }
    {
        // A copy, and the event itself, since what lies behind `self` would be read again for each pair.
        let vectors = self.vectors;
        let order = self.order;
        let a = events::at_place(order, i);
        let v = events::event_at(vectors.records, a);
        let mut next = p;
        for j in Linked::from(self.chain, i, order.len()) {
            let b = events::at_place(order, j);
            next = vectors.list_pair(v, a, b, out, next);
        }
        next
    }

    // Lists the events in the chain of a cell, from place p on. Answers the place after their entries.
    fn list_cell(&self, cell: u16, out: &mut [u16], p: usize) -> usize
        requires { (cell < self.now.vectors.counts.cells) × (p ≤ far) }
        ensures { Laid out.old p (by cell_entries self.now.vectors self.now.order.now cell) out.new result }
    {
        let mut next = p;
        for i in Linked::from(self.chain, MOST_EVENTS + (cell as usize), self.order.len()) {
            next = self.list_row(i, out, next);
        }
        next
    }

    // Lists all cells. Answers the place after their entries.
    fn list_all(&self, out: &mut [u16]) -> usize
        ensures { Laid out.old 0 (by entries_in self.now.vectors self.now.order.now) out.new result }
    {
        let mut next = 0;
        for cell in 0..self.vectors.counts.cells {
            next = self.list_cell(cell, out, next);
        }
        next
    }

    // Writes the list: counts first, into no memory, so that nothing is written where there is no room for `width` numbers an entry.
    fn write(&self, width: usize, out: &mut [u16]) -> Result<usize, NoRoom>
        requires { Width width }
        ensures { WrittenList width (by entries_in self.now.vectors self.now.order.now) out.old out.new (fits result) (pairs_of result) }
    {
        let mut nothing = [0u16; 0];
        let pairs = self.list_all(&mut nothing) / 3;
        let room = out.len();
        if room < width * pairs {
            return Err(NoRoom { pairs });
        }
        self.list_all(out);
        Ok(pairs)
    }
}
