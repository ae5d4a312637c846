// An order that shows a pair reversed: a recording whose records are those of a file in an admissible order in which a chosen event
// comes earlier than another one.
#![tactic(auto)]

ghost use Rattle.std.specs.Prelude.{◌≡◌, ◌+◌, ◌≤◌, ◌++◌, length};
ghost use Rattle.model.specs.File.{events_of};
ghost use Rattle.model.specs.Reading.{reading_of, most_events, most_semaphores, most_flags};
ghost use Rattle.model.specs.Reversed.{bring_forward, reversed_of, work_after_reversing, out_after_reversing};
ghost use Rattle.passes.specs.Lent.{Numbered};
ghost use Rattle.passes.specs.Lookups.{vectors_of};
ghost use Rattle.reversed.specs.Lent.{side_by, on_side_by, forward_of, forward_out, Reversed};

use arrayvec::ArrayVec;
use events::Parts;
use model::{MOST_EVENTS, Refusal, Trailer};
use passes::EventVectors;
use work::ReadyEvents;

// Whether the vectors put event a at or before event x, or else the opposite.
fn on_side(vectors: &EventVectors, a: usize, x: usize, first: bool) -> bool
    requires { Numbered vectors.now.records.now a × Numbered vectors.now.records.now x }
    ensures { result ≡ on_side_by vectors.now x first a }
{
    let before = vectors.at_or_before(a, x);
    if first {
        return before;
    }
    !before
}

// Puts the events that the vectors put at or before x, or else the others, in file order behind the order.
fn put_side(vectors: &EventVectors, x: usize, first: bool, order: &mut ArrayVec<u16, MOST_EVENTS>)
    requires { Numbered vectors.now.records.now x × (length order.old.items + length (side_by vectors.now x first) ≤ most_events) }
    ensures { order.new.items ≡ order.old.items ++ side_by vectors.now x first }
{
    for a in 0..vectors.records.len() / 4 {
        if on_side(vectors, a, x, first) {
            order.push(a as u16);
        }
    }
}

// The order that brings x forward: the events that the vectors put at or before it, then the others, each in file order.
fn bring_forward(vectors: &EventVectors, x: usize) -> ArrayVec<u16, MOST_EVENTS>
    requires { Numbered vectors.now.records.now x }
    ensures { result.items ≡ bring_forward (events_of vectors.now.records.now) (vectors_of vectors.now) x }
{
    let mut order = ArrayVec::new();
    put_side(vectors, x, true, &mut order);
    put_side(vectors, x, false, &mut order);
    order
}

// Writes the records with the chosen event brought forward by the recorded vectors, unless these order it and the other event.
fn write_forward(
    recorded: &EventVectors,
    levels: &[u8],
    chosen: usize,
    other: usize,
    out: &mut [u8],
) -> Result<usize, Refusal>
    requires levels { length levels.now ≤ most_semaphores + most_flags }
    requires numbered { Numbered recorded.now.records.now chosen × Numbered recorded.now.records.now other }
    ensures value { result ≡ forward_of recorded.now.records.now levels.now (vectors_of recorded.now) chosen other out.old }
    ensures out_after { out.new ≡ forward_out recorded.now.records.now recorded.now.counts levels.now (vectors_of recorded.now) chosen other out.old }
{
    if !recorded.unordered(chosen, other) {
        return Err(Refusal::Unsure);
    }
    let length = recorded.records.len() + levels.len() + 16;
    if out.len() < length {
        return Err(Refusal::Out);
    }
    let order = bring_forward(recorded, chosen);
    layout::put_picked(
        recorded.records,
        order.as_slice(),
        recorded.counts,
        levels,
        out,
    );
    Ok(length)
}

// The call on a file that reading accepts with this trailer.
#[tactic(auto, using(work::proofs::Accepted::levels_inside))]
fn reverse_read(
    file: &[u8],
    trailer: Trailer,
    chosen: usize,
    other: usize,
    work: &mut [u16],
    out: &mut [u8],
) -> Result<usize, Refusal>
    requires { reading_of file.now ≡ Ok trailer }
    ensures { Reversed file.now chosen other work.old out.old result work.new out.new }
{
    let parts = Parts::of(file, trailer);
    let positions = events::positions(parts.records);
    let ready = ReadyEvents {
        records: parts.records,
        counts: parts.counts,
        levels: parts.levels,
        positions: &positions,
    };
    ready.fill_asked(chosen, other, 0, work)?;
    let recorded = ready.recorded(work);
    write_forward(&recorded, parts.levels, chosen, other, out)
}

// Writes a recording that shows the chosen event earlier than the other: the events that the recorded run puts at or before the
// chosen one, then the others, each in file order. Answers its length. Output bytes beyond it stay, and the work numbers are left as
// after analysing with budget 0; so they are after 15 (unsure) and 12 (out), which leave the output as it was. Another refusal leaves
// both.
pub fn write_reversed(
    file: &[u8],
    chosen: usize,
    other: usize,
    work: &mut [u16],
    out: &mut [u8],
) -> Result<usize, Refusal>
    ensures value { result ≡ reversed_of file.now chosen other work.old out.old }
    ensures work_after { work.new ≡ work_after_reversing file.now chosen other work.old }
    ensures out_after { out.new ≡ out_after_reversing file.now chosen other work.old out.old }
{
    let trailer = recording::read(file)?;
    reverse_read(file, trailer, chosen, other, work, out)
}
