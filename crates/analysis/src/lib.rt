// Analysing a recording file, and questions about two of its events.
#![tactic(auto)]

ghost use Rattle.std.specs.Prelude.{◌≡◌};
ghost use Rattle.model.specs.Recording.{Recording, size};
ghost use Rattle.model.specs.Reading.{reading_of};
ghost use Rattle.model.specs.Analysing.{done, analysis_of, work_after_analysing, list_after_analysing};
ghost use Rattle.model.specs.Question.{answer_of, work_after_asking};
ghost use Rattle.analysis.specs.Lent.{Analysed, Asked};

use events::Parts;
use model::{Analysis, Refusal, Relation, Trailer};
use pairs::NoRoom;
use work::ReadyEvents;

const ENTRY: usize = 3; // the numbers of an entry

// Analyses a recording without events: there is nothing to raise and nothing to list, so one quiet pass settles it.
#[tactic(auto, using(model::proofs::Nothing::done_unspent, model::proofs::Nothing::done_quiet))]
fn analyse_none(budget: u32) -> Result<Analysis, Refusal>
    ensures { (E : Recording) → size E ≡ 0 → result ≡ done E budget }
{
    if budget == 0 {
        return Ok(Analysis {
            passes: 0,
            settled: false,
            pairs: 0,
        });
    }
    Ok(Analysis {
        passes: 1,
        settled: true,
        pairs: 0,
    })
}

// Analyses a file that reading accepts with this trailer. Without records there is no memory to prepare.
#[tactic(auto, using(work::proofs::Accepted::levels_inside))]
fn analyse_read(
    file: &[u8],
    trailer: Trailer,
    budget: u32,
    work: &mut [u16],
    list: &mut [u16],
) -> Result<Analysis, Refusal>
    requires { reading_of file.now ≡ Ok trailer }
    ensures { Analysed file.now budget work.old list.old result work.new list.new }
{
    if trailer.records == 0 {
        return analyse_none(budget);
    }
    let parts = Parts::of(file, trailer);
    if !work::work_fits(parts.records, parts.counts, work) {
        return Err(Refusal::Work);
    }
    let positions = events::positions(parts.records);
    let ready = ReadyEvents {
        records: parts.records,
        counts: parts.counts,
        levels: parts.levels,
        positions: &positions,
    };
    let made = ready.fill(budget, work);
    match ready.list_pairs(work, ENTRY, list) {
        Ok(pairs) => Ok(Analysis {
            passes: made.passes,
            settled: made.settled,
            pairs,
        }),
        Err(NoRoom { pairs }) => Err(Refusal::List(pairs)),
    }
}

// Analyses a recording file with a budget of passes. The work numbers are left with the safe and the recorded vectors, the
// list with its entries; a refusal leaves them as they were, but 10 (list) leaves the work numbers filled.
pub fn analyse(
    file: &[u8],
    budget: u32,
    work: &mut [u16],
    list: &mut [u16],
) -> Result<Analysis, Refusal>
    ensures value { result ≡ analysis_of file.now budget work.old list.old }
    ensures work_after { work.new ≡ work_after_analysing file.now budget work.old }
    ensures list_after { list.new ≡ list_after_analysing file.now budget work.old list.old }
{
    let trailer = recording::read(file)?;
    analyse_read(file, trailer, budget, work, list)
}

// The question about a file that reading accepts with this trailer.
#[tactic(auto, using(work::proofs::Accepted::levels_inside))]
fn ask_read(
    file: &[u8],
    trailer: Trailer,
    a: usize,
    b: usize,
    budget: u32,
    work: &mut [u16],
) -> Result<Relation, Refusal>
    requires { reading_of file.now ≡ Ok trailer }
    ensures { Asked file.now a b budget work.old result work.new }
{
    let parts = Parts::of(file, trailer);
    let positions = events::positions(parts.records);
    let ready = ReadyEvents {
        records: parts.records,
        counts: parts.counts,
        levels: parts.levels,
        positions: &positions,
    };
    ready.fill_asked(a, b, budget, work)?;
    Ok(ready.relate(work, a, b))
}

// Asks how events a and b of a recording file stand to each other, with a budget of passes. The work numbers are left as after
// analysing; a refusal leaves them as they were.
pub fn ask(
    file: &[u8],
    a: usize,
    b: usize,
    budget: u32,
    work: &mut [u16],
) -> Result<Relation, Refusal>
    ensures value { result ≡ answer_of file.now a b budget work.old }
    ensures work_after { work.new ≡ work_after_asking file.now a b budget work.old }
{
    let trailer = recording::read(file)?;
    ask_read(file, trailer, a, b, budget, work)
}
