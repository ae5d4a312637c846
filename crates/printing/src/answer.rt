// The report of an answer.
ghost use Rattle.std.specs.Prelude.{◌≡◌};
ghost use Rattle.model.specs.Reading.{reading_of};
ghost use Rattle.printing.specs.Output.{Put};
ghost use Rattle.printing.specs.Answer.{tasks_in, Holds, answer_text};

use crate::output::Output;
use model::{Analysis, Refusal};

pub fn tasks_of(file: &[u8]) -> u16
    ensures { result ≡ tasks_in (reading_of file.now) }
{
    match recording::read(file) {
        Ok(h) => h.counts.tasks,
        Err(_) => 0,
    }
}

impl<'a> Output<'a> {
    pub fn answer(
        &mut self,
        records: &[u8],
        tasks: u16,
        answer: Result<Analysis, Refusal>,
        list: &[u16],
    )
        requires { Holds answer list.now }
        ensures put { Put self.old.bytes.now self.new.bytes.now self.old.at (answer_text records.now tasks answer list.now) self.new.at }
        ensures same_output { self.new.bytes.ghost_name ≡ self.old.bytes.ghost_name }
    {
        match answer {
            Ok(made) => {
                self.result(records.len() / 4, tasks, made);
                self.entries(records, list, made.pairs);
            }
            Err(r) => self.refusal(r),
        }
    }
}

// Puts an answer's report at the front of an output. Answers how many bytes that were.
pub fn put_answer(
    out: &mut [u8],
    records: &[u8],
    tasks: u16,
    answer: Result<Analysis, Refusal>,
    list: &[u16],
) -> usize
    requires { Holds answer list.now }
    ensures { Put out.old out.new 0 (answer_text records.now tasks answer list.now) result }
{
    let mut output = Output::new(out);
    output.answer(records, tasks, answer, list);
    output.at
}

// Puts a text at the front of an output. Answers how many bytes that were.
pub fn put_text(out: &mut [u8], text: &[u8]) -> usize
    ensures { Put out.old out.new 0 text.now result }
{
    let mut output = Output::new(out);
    output.text(text);
    output.at
}
