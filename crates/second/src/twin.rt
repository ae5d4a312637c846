// One of two recordings of a job that are held together.
ghost use Rattle.second.specs.Refusals.{RefusesUpTo};

use crate::Fault;
use crate::file::Recording;
use crate::memory::{at, put};
use crate::scan::load;
use crate::state::{EVENTS, Event, State};

// A recording, and which event is at each task and position: the first position of a task stands at 0. The table is
// apart from the state, since only two recordings held together are looked up by task and position.
#[derive(Drop)]
pub(crate) struct Twin {
    pub(crate) state: State,
    named: [[Option<u16>; EVENTS]; 16],
}

impl Twin {
    pub(crate) const EMPTY: Twin = Twin {
        state: State::EMPTY,
        named: [[None; EVENTS]; 16],
    };

    // Reads a file.
    pub(crate) fn load<'a>(&mut self, file: &'a [u8]) -> Result<Recording<'a>, Fault>
        ensures { RefusesUpTo 16 result }
    {
        let recording = load(file, &mut self.state)?;
        for (e, x) in (0u16..).zip(self.state.events()) {
            if let Some(own) = self.named.get_mut(x.task as usize) {
                put(own, x.position.wrapping_sub(1) as usize, Some(e));
            }
        }
        Ok(recording)
    }

    // The event at a task and position.
    pub(crate) fn named(&self, task: u16, position: u16) -> Option<u16> {
        let own = self.named.get(task as usize)?;
        at(own, position.wrapping_sub(1) as usize)
    }

    // The same as a record.
    pub(crate) fn event(&self, task: u16, position: u16) -> Option<Event> {
        let e = self.named(task, position)?;
        Some(self.state.event(e))
    }
}
