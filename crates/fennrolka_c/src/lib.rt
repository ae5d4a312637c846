// The C names of `fennrolka`'s functions, each with its clauses: a static library exports them, and no crate of Rattle can use one.
#![tactic(auto)]

ghost use Rattle.std.specs.Prelude.{◌≡◌};
ghost use Rattle.model.specs.Reading.{reading_of};
ghost use Rattle.model.specs.Analysing.{analysis_of, work_after_analysing, list_after_analysing};
ghost use Rattle.model.specs.Report.{laid};
ghost use Rattle.fennrolka.specs.Looking.{looked_of};
ghost use Rattle.fennrolka.specs.Told.{code_of, told_of_reading, told_of_looked, told_of_analysis};

// Reads a file.
#[unsafe(no_mangle)]
pub extern "C" fn fennrolka_read(file: &[u8], told: &mut [u64]) -> u32
    ensures value { result ≡ code_of (reading_of file.now) }
    ensures told_after { told.new ≡ laid (told_of_reading (reading_of file.now)) told.old }
{
    fennrolka::fennrolka_read(file, told)
}

// Looks for event e of a file.
#[unsafe(no_mangle)]
pub extern "C" fn fennrolka_event(file: &[u8], e: usize, told: &mut [u64]) -> u32
    ensures value { result ≡ code_of (looked_of file.now e) }
    ensures told_after { told.new ≡ laid (told_of_looked (looked_of file.now e)) told.old }
{
    fennrolka::fennrolka_event(file, e, told)
}

// Analyses a file with a budget of passes.
#[unsafe(no_mangle)]
pub extern "C" fn fennrolka_analyse(
    file: &[u8],
    budget: u32,
    work: &mut [u16],
    list: &mut [u16],
    told: &mut [u64],
) -> u32
    ensures value { result ≡ code_of (analysis_of file.now budget work.old list.old) }
    ensures work_after { work.new ≡ work_after_analysing file.now budget work.old }
    ensures list_after { list.new ≡ list_after_analysing file.now budget work.old list.old }
    ensures told_after { told.new ≡ laid (told_of_analysis (analysis_of file.now budget work.old list.old)) told.old }
{
    fennrolka::fennrolka_analyse(file, budget, work, list, told)
}
