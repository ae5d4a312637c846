// The functions for callers in C, on numbers and lent slices. Each takes any input, answers 0 or the number of a refusal, and puts
// its numbers from the front of `told`, as many as there is room for; what is behind them stays. `fennrolka_c` exports them, and
// fennrolka.h declares them.
#![tactic(auto)]

ghost use Rattle.std.specs.Prelude.{◌≡◌};
ghost use Rattle.model.specs.File.{events_of};
ghost use Rattle.model.specs.Reading.{reading_of};
ghost use Rattle.model.specs.Analysing.{analysis_of, work_after_analysing, list_after_analysing};
ghost use Rattle.model.specs.Report.{laid};
ghost use Rattle.fennrolka.specs.Looking.{looked_among, looked_of};
ghost use Rattle.fennrolka.specs.Told.{code_of, told_of_trailer, told_of_reading, told_of_looked, told_of_analysis};

use model::{Analysis, Event, Refusal, Trailer};

// Puts the numbers at the front of what is lent, as many as there is room for.
fn tell(told: &mut [u64], numbers: &[u64])
    ensures { told.new ≡ laid numbers.now told.old }
{
    let n = numbers.len().min(told.len());
    told[..n].copy_from_slice(&numbers[..n]);
}

// The code of an answer: 0, or the number of the refusal.
fn code_of<T: Copy>(found: Result<T, Refusal>) -> u32
    ensures { result ≡ code_of found }
{
    match found {
        Ok(_) => 0,
        Err(r) => r.number() as u32,
    }
}

// ---- reading

fn trailer_numbers(h: Trailer) -> [u64; 8]
    ensures { result ≡ told_of_trailer h }
{
    let counts = h.counts;
    [
        counts.edition as u64,
        h.start as u64,
        h.records as u64,
        counts.tasks as u64,
        events::semaphores(counts) as u64,
        events::flags(counts) as u64,
        counts.cells as u64,
        0,
    ]
}

fn reading_numbers(found: Result<Trailer, Refusal>) -> [u64; 8]
    ensures { result ≡ told_of_reading found }
{
    match found {
        Ok(h) => trailer_numbers(h),
        Err(r) => [0, 0, 0, 0, 0, 0, 0, r.record() as u64],
    }
}

// Reads a file. Told: edition, start, events, tasks, semaphores, flags, cells, and the faulty record of a refusal.
pub fn fennrolka_read(file: &[u8], told: &mut [u64]) -> u32
    ensures value { result ≡ code_of (reading_of file.now) }
    ensures told_after { told.new ≡ laid (told_of_reading (reading_of file.now)) told.old }
{
    let found = recording::read(file);
    let numbers = reading_numbers(found);
    tell(told, &numbers);
    code_of(found)
}

// ---- an event

fn looked_numbers(found: Result<Event, Refusal>) -> [u64; 4]
    ensures { result ≡ told_of_looked found }
{
    match found {
        Ok(v) => [v.task as u64, v.kind as u64, v.object as u64, 0],
        Err(r) => [0, 0, 0, r.record() as u64],
    }
}

// Event e of the records, or 11 where there is none.
fn look_in(records: &[u8], e: usize) -> Result<Event, Refusal>
    ensures { result ≡ looked_among (events_of records.now) e }
{
    if e < records.len() / 4 {
        return Ok(events::event_at(records, e));
    }
    Err(Refusal::Event)
}

// Event e of a file.
fn look(file: &[u8], e: usize) -> Result<Event, Refusal>
    ensures { result ≡ looked_of file.now e }
{
    let h = recording::read(file)?;
    look_in(events::records_of(file, h), e)
}

// Looks for event e of a file. Told: task, kind, object, and the faulty record of a refusal.
pub fn fennrolka_event(file: &[u8], e: usize, told: &mut [u64]) -> u32
    ensures value { result ≡ code_of (looked_of file.now e) }
    ensures told_after { told.new ≡ laid (told_of_looked (looked_of file.now e)) told.old }
{
    let found = look(file, e);
    let numbers = looked_numbers(found);
    tell(told, &numbers);
    code_of(found)
}

// ---- analysing

fn analysis_numbers(found: Result<Analysis, Refusal>) -> [u64; 4]
    ensures { result ≡ told_of_analysis found }
{
    match found {
        Ok(made) => [
            made.passes as u64,
            made.settled as u64,
            made.pairs as u64,
            0,
        ],
        Err(r) => [0, 0, r.pairs() as u64, r.record() as u64],
    }
}

// Analyses a file with a budget of passes, and leaves work numbers and list as `analysis::analyse` does. Told: passes, settled,
// pairs, also those that 10 asks for, and the faulty record of a refusal.
pub fn fennrolka_analyse(
    file: &[u8],
    budget: u32,
    work: &mut [u16],
    list: &mut [u16],
    told: &mut [u64],
) -> u32
    ensures value { result ≡ code_of (analysis_of file.now budget work.old list.old) }
    ensures work_after { work.new ≡ work_after_analysing file.now budget work.old }
    ensures list_after { list.new ≡ list_after_analysing file.now budget work.old list.old }
    ensures told_after { told.new ≡ laid (told_of_analysis (analysis_of file.now budget work.old list.old)) told.old }
{
    let found = analysis::analyse(file, budget, work, list);
    let numbers = analysis_numbers(found);
    tell(told, &numbers);
    code_of(found)
}
