// What the program prints, as bytes in a lent output.
#![tactic(auto)]

ghost use Rattle.std.specs.Prelude.{◌≡◌};
ghost use Rattle.model.specs.Report.{report_of, work_after_reporting, list_after_reporting, laid, filling};

use model::MOST_BYTES;

// What the program prints of a file: the report of an analysis with the budget N × N + 1, the line
// of a refusal, or `too long`. It is put at the start of the output, and what does not fit is left
// off; the answer is how many bytes were put. Work numbers and list are left as after analysing.
pub fn report(file: &[u8], work: &mut [u16], list: &mut [u16], out: &mut [u8]) -> usize
    ensures value { result ≡ filling (report_of file.now work.old list.old) out.old }
    ensures out_after { out.new ≡ laid (report_of file.now work.old list.old) out.old }
    ensures work_after { work.new ≡ work_after_reporting file.now work.old }
    ensures list_after { list.new ≡ list_after_reporting file.now work.old list.old }
{
    if MOST_BYTES < file.len() {
        return printing::answer::put_text(out, b"too long\n");
    }
    let records = recording::records(file);
    let budget = work::budget_of(records);
    let tasks = printing::answer::tasks_of(file);
    let found = analysis::analyse(file, budget, work, list);
    printing::answer::put_answer(out, records, tasks, found, list)
}
