// What a call answers, in one form for all calls and for both sides.
ghost use Rattle.std.specs.Prelude.{◌≡◌, true, IfSome};
ghost use Rattle.std.specs.Option.{unwrap_or};
ghost use Rattle.model.specs.Refusals.{number_of, record_of};
ghost use Rattle.second.specs.Refusals.{number_of as told, record_of as faulty};

use model::{Analysis, Refusal};
use second::{Done, Fault, Lead, Relation};

#[derive(Clone, Copy, PartialEq)]
pub enum Answer {
    Analysed(Done),
    Related(Relation),
    Pairs(u32),
    Length(usize),
    Leads(Lead),
    // A relation or a lead by a number that is none of the table's: no answer of the second analyser.
    Unknown(u8),
}

// Why a call is refused. None where the library tells of it what no fault has: no answer of the second analyser.
pub type Refused = Option<Fault>;

pub type Told = Result<Answer, Refused>;

// The pairs that are listed, or that the list should have held.
pub(crate) fn pairs(told: Told) -> u32 {
    match told {
        Ok(Answer::Analysed(done)) => done.pairs,
        Ok(Answer::Pairs(pairs)) => pairs,
        Err(Some(Fault::List { pairs })) => pairs,
        _ => 0,
    }
}

// The bytes that were written.
pub(crate) fn length(told: Told) -> usize {
    match told {
        Ok(Answer::Length(n)) => n,
        _ => 0,
    }
}

// What does not hang on which of two files is lent first: the pairs, also those that any refusal tells.
pub(crate) fn turned(joint: Result<usize, Refusal>) -> Told {
    Ok(Answer::Pairs(wide(match joint {
        Ok(pairs) => pairs,
        Err(r) => r.pairs(),
    })))
}

// ---- the library's answers in the second analyser's form

// A record in 16 bits; what is past them is taken for the largest, which no answer has.
fn short(x: usize) -> u16 {
    u16::try_from(x).unwrap_or(u16::MAX)
}

// The same in 32 bits.
fn wide(x: usize) -> u32 {
    u32::try_from(x).unwrap_or(u32::MAX)
}

// All that the library tells of a refusal is what the fault has of it, and 0 where the fault has none.
fn tells(r: Refusal, fault: Fault) -> bool
    ensures { result ≡ true → unwrap_or (faulty fault) 0 ≡ record_of r }
{
    let record = fault.record().unwrap_or(0);
    let needed = pairs(Err(Some(fault)));
    let (task, position) = match fault {
        Fault::Differ { task, position } => (task, position),
        _ => (0, 0),
    };
    r.record() == record as usize
        && r.task() == task
        && r.position() == position
        && r.pairs() == needed as usize
}

// A refusal, by what the library tells of it: by its numbers, so that these are compared too.
pub(crate) fn fault(r: Refusal) -> Refused
    ensures number { IfSome result (λ f. told f ≡ number_of r) }
    ensures record { IfSome result (λ f. unwrap_or (faulty f) 0 ≡ record_of r) }
{
    let record = short(r.record());
    let fault = match r.number() {
        1 => Fault::Short,
        2 => Fault::Edition,
        3 => Fault::Extent,
        4 => Fault::Count,
        5 => Fault::Kind { record },
        6 => Fault::Name { record },
        7 => Fault::Life { record },
        8 => Fault::Empty { record },
        9 => Fault::Work,
        10 => Fault::List {
            pairs: wide(r.pairs()),
        },
        11 => Fault::Event,
        12 => Fault::Out,
        13 => Fault::Starts,
        14 => Fault::Differ {
            task: r.task(),
            position: r.position(),
        },
        15 => Fault::Unsure,
        16 => Fault::Flag { record },
        17 => Fault::Stretch,
        _ => return None,
    };
    if tells(r, fault) { Some(fault) } else { None }
}

pub(crate) fn analysed(a: Analysis) -> Answer {
    Answer::Analysed(Done {
        passes: a.passes,
        settled: a.settled,
        pairs: wide(a.pairs),
    })
}

pub(crate) fn related(r: model::Relation) -> Answer {
    Answer::Related(match r.number() {
        1 => Relation::First,
        2 => Relation::Second,
        3 => Relation::Open,
        4 => Relation::Sure,
        n => return Answer::Unknown(n),
    })
}

pub(crate) fn joint(pairs: usize) -> Answer {
    Answer::Pairs(wide(pairs))
}

pub(crate) fn leads(lead: stretches::Lead) -> Answer {
    Answer::Leads(match lead.number() {
        1 => Lead::First,
        2 => Lead::Second,
        3 => Lead::Neither,
        n => return Answer::Unknown(n),
    })
}
