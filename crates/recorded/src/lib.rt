// The recorded run over record bytes and lent work numbers: each event's vector is made once, in file order, by step 1, for a wait
// the signal that it is matched with, and for a flag wait the posts that opened its flag.
#![tactic(auto)]

ghost use Rattle.std.specs.Prelude.{◌+◌, ◌*◌, ◌≤◌, ◌<◌, ◌≡◌, ◌++◌, length, take, drop};
ghost use Rattle.model.specs.File.{events_of};
ghost use Rattle.model.specs.Vectors.{flat};
ghost use Rattle.model.specs.Passes.{posts_on};
ghost use Rattle.model.specs.Recorded.{matched, opened, recorded};
ghost use Rattle.model.specs.Reading.{most_flags};
ghost use Rattle.events.specs.Kept.{Below};
ghost use Rattle.passes.specs.Lookups.{recording_of, vectors_over, Fits, Has};
ghost use Rattle.passes.specs.Steps.{taken};
ghost use Rattle.recorded.specs.Matching.{MatchedTo};
ghost use Rattle.recorded.specs.Steps.{recorded_event};

use events::CHAINS;
use model::{FLAG_WAIT, MOST_EVENTS, MOST_SEMAPHORES, POST, WAIT};
use passes::Lookups;

// A place for each semaphore.
const SEMAPHORES: usize = MOST_SEMAPHORES as usize;

// The matching of waits with signals, one event after another: how many waits on each semaphore have had no signal, and at its place
// in the chains the signal at hand; at a signal's place the next one. Both are arrays with a place for each: no heap (project rule).
#[derive(Drop)]
struct Matches {
    unmatched: [u16; SEMAPHORES],
    hand: [u16; CHAINS],
}

impl Matches {
    // The signal that event e is matched with. The first waits on a semaphore, as many as its start count, have none; a later one
    // has the signal at hand, and then the next one is at hand.
    fn take_signal(&mut self, look: &Lookups, e: usize) -> Option<usize>
        requires { Has look.now e × MatchedTo look.now e self.old }
        ensures value { (result ≡ matched (recording_of look.now).levels (events_of look.now.records.now) e) × Below (length (events_of look.now.records.now)) result }
        ensures cases { MatchedTo look.now (e + 1) self.new }
    {
        let w = events::event_at(look.records, e);
        if w.kind != WAIT {
            return None;
        }
        let x = w.object as usize;
        if self.unmatched[x] < events::start_of(look.levels, look.counts, w.object) {
            self.unmatched[x] += 1;
            return None;
        }
        let head = MOST_EVENTS + x;
        let a = self.hand[head] as usize;
        if look.records.len() / 4 <= a {
            return None;
        }
        self.hand[head] = self.hand[a];
        Some(a)
    }

    // Makes the recorded vector of event e: step 1, for a wait the matched signal, and for a flag wait the first posts.
    fn record_event(&mut self, look: &Lookups, e: usize, v: &mut [u16])
        requires fitting { Fits look.now v.old × Has look.now e }
        requires matched { MatchedTo look.now e self.old }
        ensures becomes { vectors_over look.now v.new ≡ recorded_event (recording_of look.now) (vectors_over look.now v.old) e }
        ensures cases { MatchedTo look.now (e + 1) self.new }
    {
        passes::step_one(look.records, look.counts, look.sources, e, v);
        let signal = self.take_signal(look, e);
        let tasks = look.counts.tasks as usize;
        passes::raise_found(v, e, tasks, signal);
        raise_opened(look, e, v);
    }
}

// Raises vector e to those of the first posts on flag g, at most `most` of them, along their chain. Not inlined: among all that a
// call of the library keeps, the walk was held in memory, and with two tasks a call of many posts took 1.3 times as long.
#[inline(never)]
fn follow_posts(look: &Lookups, e: usize, g: u16, most: u16, v: &mut [u16])
    requires { Fits look.now v.old × Has look.now e × (g < most_flags) }
    ensures { vectors_over look.now v.new ≡ taken look.now.counts (vectors_over look.now v.old) (take most (posts_on (events_of look.now.records.now) g)) e }
{
    let posts = events::events_on(look.records, look.chains, POST, g);
    let tasks = look.counts.tasks as usize;
    for a in posts.take(most as usize) {
        vectors::raise_row(v, e, a, tasks);
    }
}

// For a flag wait, raises vector e to those of the first posts on its flag, as many as the post count.
fn raise_opened(look: &Lookups, e: usize, v: &mut [u16])
    requires { Fits look.now v.old × Has look.now e }
    ensures { vectors_over look.now v.new ≡ taken look.now.counts (vectors_over look.now v.old) (opened (recording_of look.now).levels (events_of look.now.records.now) e) e }
{
    let w = events::event_at(look.records, e);
    if w.kind == FLAG_WAIT {
        let most = events::post_of(look.levels, look.counts, w.object);
        follow_posts(look, e, w.object, most, v);
    }
}

// Makes the recorded vectors, in file order.
fn record_all(look: &Lookups, v: &mut [u16])
    requires { Fits look.now v.old }
    ensures { v.new ≡ flat (recorded (recording_of look.now)) }
{
    look.start(v);
    let mut matches = Matches {
        unmatched: [0; SEMAPHORES],
        hand: *look.chains,
    };
    for e in 0..look.records.len() / 4 {
        matches.record_event(look, e, v);
    }
}

// The recorded vectors, from the front; what is behind them stays.
pub fn record(look: &Lookups, v: &mut [u16])
    requires { length (events_of look.now.records.now) * look.now.counts.tasks ≤ length v.old }
    ensures { v.new ≡ flat (recorded (recording_of look.now)) ++ drop (length (events_of look.now.records.now) * look.now.counts.tasks) v.old }
{
    let tasks = look.counts.tasks as usize;
    let nt = look.records.len() / 4 * tasks;
    record_all(look, &mut v[..nt]);
}
