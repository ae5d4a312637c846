// Two stretches of work, by their events: each event of the one is held against each of the other, and two
// stretches overlap where an event is in both.
use crate::state::{Event, State};
use crate::vectors::before;
use crate::{Lead, Stretch};

impl Stretch {
    fn has(&self, x: &Event) -> bool {
        x.task == self.task && self.first <= x.position && x.position <= self.last
    }

    // A task of the recording has each position of the stretch.
    fn is_known(&self, state: &State, tasks: u16) -> bool {
        let task = self.task;
        let own = state.events().iter().filter(|x| x.task == task).count();
        task < tasks && self.first != 0 && self.first <= self.last && self.last as usize <= own
    }
}

// Both are stretches of a recording with so many tasks, and they do not overlap.
pub(crate) fn are_stretches(state: &State, tasks: u16, one: &Stretch, other: &Stretch) -> bool {
    let overlap = state.events().iter().any(|x| one.has(x) && other.has(x));
    one.is_known(state, tasks) && other.is_known(state, tasks) && !overlap
}

// Event a is ordered before each that is in the stretch.
fn is_before(state: &State, a: u16, s: &Stretch) -> bool {
    for (b, x) in (0u16..).zip(state.events()) {
        if s.has(x) && !before(state, &state.safe, a, b) {
            return false;
        }
    }
    true
}

// Each event that is in the one stretch is ordered before each that is in the other.
fn all_before(state: &State, one: &Stretch, other: &Stretch) -> bool {
    for (a, x) in (0u16..).zip(state.events()) {
        if one.has(x) && !is_before(state, a, other) {
            return false;
        }
    }
    true
}

// Which of two stretches is before the other.
pub(crate) fn lead(state: &State, one: &Stretch, other: &Stretch) -> Lead {
    if all_before(state, one, other) {
        return Lead::First;
    }
    if all_before(state, other, one) {
        return Lead::Second;
    }
    Lead::Neither
}
