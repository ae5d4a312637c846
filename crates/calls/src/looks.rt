// Looks for a task's last event in a part of the records. The library's goes back and the second
// analyser's forward; both numbers that they answer are compared with each other, and with numbers
// written by hand.
ghost use Rattle.std.specs.Prelude.{◌≤◌};

use rows::tally::Trial;
use second::Look;

// The library's look, in the second analyser's form.
fn our_look(part: &[u8], task: u16) -> Look {
    let look = events::last_event(part, task);
    Look {
        last: look.last,
        read: look.read,
    }
}

fn agrees(part: &[u8], task: u16) -> bool {
    our_look(part, task) == second::last_event(part, task)
}

// Both looks answer the same.
pub fn try_look(trial: &mut Trial, part: &[u8], task: u16)
    ensures { trial.old.tally.wrong ≤ trial.new.tally.wrong }
{
    trial.count(agrees(part, task), part);
}

// The task's last event in a part of the records is that in all of them.
pub fn try_same_last(trial: &mut Trial, part: &[u8], records: &[u8], task: u16)
    ensures { trial.old.tally.wrong ≤ trial.new.tally.wrong }
{
    let kept = our_look(part, task).last == our_look(records, task).last;
    trial.count(agrees(part, task) && kept, records);
}

// Both answer this: the hit, where there is one, and how many records were read.
pub fn try_found(trial: &mut Trial, part: &[u8], task: u16, look: Look)
    ensures { trial.old.tally.wrong ≤ trial.new.tally.wrong }
{
    trial.count(our_look(part, task) == look && agrees(part, task), part);
}
