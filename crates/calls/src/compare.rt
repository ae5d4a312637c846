// A call made by both sides with the same memory lent: their answers and all that they leave are compared.
ghost use Rattle.std.specs.Prelude.{◌<◌, ◌^◌};

use crate::call::{Call, Lent, ours, theirs};
use crate::told::{Told, length, pairs};
use rows::bytes::{Marked, first, same_left};
use second::Fault;

// What both answered, and whether they agree in it and in all that they leave.
#[derive(Clone, Copy)]
pub(crate) struct Outcome {
    pub(crate) told: Told,
    pub(crate) agrees: bool,
}

// As many work numbers as a call that answers so fills for each file.
fn filled(call: Call, told: Told) -> (usize, usize) {
    match told {
        Ok(_) | Err(Some(Fault::List { .. } | Fault::Out | Fault::Unsure)) => call.work(),
        Err(_) => (0, 0),
    }
}

// With up to W work numbers for a file and as many list numbers; the output is left in out.
fn compare_in<const W: usize, const L: usize>(call: Call, l: Lent, out: &mut [u8]) -> Outcome
    requires work { W < 2 ^ 62 }
    requires list { L < 2 ^ 62 }
{
    let mut work = [u16::MARK; W];
    let mut more = [u16::MARK; W];
    let mut list = [u16::MARK; L];
    let mut their_work = [u16::MARK; W];
    let mut their_more = [u16::MARK; W];
    let mut their_list = [u16::MARK; L];
    let mut their_out = [u8::MARK; 8192];
    let work = first(&mut work[..], l.work);
    let more = first(&mut more[..], l.other);
    let list = first(&mut list[..], l.list);
    let their_work = first(&mut their_work[..], l.work);
    let their_more = first(&mut their_more[..], l.other);
    let their_list = first(&mut their_list[..], l.list);
    let their_out = first(&mut their_out, l.out);
    let told = theirs(call, their_work, their_more, their_list, their_out);
    let same = ours(call, work, more, list, out) == told;
    let (one, two) = filled(call, told);
    let listed = if told.is_ok() { pairs(told) } else { 0 };
    let agrees = same
        && same_left(work, their_work, one)
        && same_left(more, their_more, two)
        && same_left(list, their_list, call.entries(listed))
        && same_left(out, their_out, length(told));
    Outcome { told, agrees }
}

// The call with these lengths of lent memory; what is written is left in out, the mark behind it.
pub(crate) fn compare(call: Call, l: Lent, out: &mut [u8]) -> Outcome {
    out.fill(u8::MARK);
    let out = first(out, l.out);
    let most = l.work.max(l.other).max(l.list);
    if most <= 512 {
        return compare_in::<512, 512>(call, l, out);
    }
    if most <= 4096 {
        return compare_in::<4096, 4096>(call, l, out);
    }
    compare_in::<32800, 41000>(call, l, out)
}
