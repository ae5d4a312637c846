// Vectors in one lent slice of work numbers, event by event, `tasks` numbers each. No event and no file is known here.
#![tactic(auto)]

ghost use Rattle.std.specs.Prelude.{ℕ, ◌+◌, ◌*◌, ◌≤◌, ◌<◌, max, ◌≡◌, ◌++◌, length, get_or, set, drop, leb};
ghost use Rattle.std.proofs.lemmas.List.Edits.{sets};
ghost use Rattle.model.specs.Numbers.{count, kth_least};
ghost use Rattle.model.specs.Reading.{most_events};
ghost use Rattle.vectors.specs.Rows.{raised_at, column, own_row, Rose};

use model::MOST_EVENTS;

// Raises the number at `at` to y. Answers whether it rose. It is stored in either case: a branch would take longer.
fn raise_number(v: &mut [u16], at: usize, y: u16) -> bool
    requires { at < length v.old }
    ensures v_after { v.new ≡ set v.old at (max (get_or v.old at 0) y) }
    ensures rose { Rose v.old v.new result }
{
    let x = v[at];
    v[at] = x.max(y);
    x < y
}

// Raises vector `to` to vector `from`, number by number. Answers whether any number rose.
pub fn raise_row(v: &mut [u16], to: usize, from: usize, tasks: usize) -> bool
    requires { (to * tasks + tasks ≤ length v.old) × (from * tasks + tasks ≤ length v.old) }
    ensures v_after { v.new ≡ raised_at v.old (to * tasks) (λ t. get_or v.old (from * tasks + t) 0) tasks }
    ensures rose { Rose v.old v.new result }
{
    let a = to * tasks;
    let b = from * tasks;
    let mut changed = false;
    for t in 0..tasks {
        let y = v[b + t];
        changed |= raise_number(v, a + t, y);
    }
    changed
}

// How many of the numbers are at most x. Counted here, in 16 bits: `filter(..).count()` counts in 64, and waits took 1.8 times as long.
fn at_most(s: &[u16], x: u16) -> u16
    requires { length s.now ≤ most_events }
    ensures { result ≡ count (λ y. leb y x) s.now }
{
    let mut n: u16 = 0;
    for y in s {
        if *y <= x {
            n += 1;
        }
    }
    n
}

// The k-th least, from 1, by halving a range that holds it: a `while`, since no index is counted.
fn narrow(s: &[u16], k: u16, from: u16, to: u16) -> u16
    requires s_len_bound { (length s.now ≤ most_events) × (k ≤ length s.now) }
    requires from_bound { (from ≤ kth_least k s.now) × (kth_least k s.now ≤ to) }
    ensures { result ≡ kth_least k s.now }
{
    let mut lo = from;
    let mut hi = to;
    while lo < hi {
        let mid = lo + (hi - lo) / 2;
        let n = at_most(s, mid);
        if k <= n {
            hi = mid;
        } else {
            lo = mid + 1;
        }
    }
    lo
}

// The larger of `own` and the k-th least. Where own is the larger, one look at the numbers is enough. In an accepted
// recording no number is above 1,024, and that range is narrowed sooner; nothing here asks for it.
fn or_kth(s: &[u16], k: u16, own: u16) -> u16
    requires { (length s.now ≤ most_events) × (k ≤ length s.now) }
    ensures { result ≡ max own (kth_least k s.now) }
{
    if k <= at_most(s, own) {
        return own;
    }
    let most = MOST_EVENTS as u16;
    if k <= at_most(s, most) {
        return narrow(s, k, own, most);
    }
    narrow(s, k, own, 65535)
}

// Event e's number for task t.
pub fn number(v: &[u16], e: usize, tasks: usize, t: usize) -> u16
    requires { e * tasks + t < length v.now }
    ensures { result ≡ get_or v.now (e * tasks + t) 0 }
{
    v[e * tasks + t]
}

// Writes the numbers for task t of the events listed, in their order.
fn gather(v: &[u16], tasks: usize, t: usize, events: &[u16], out: &mut [u16])
    requires events_in_bounds { length events.now ≤ length out.old }
    requires by_index { (i : ℕ) → i < length events.now → get_or events.now i 0 * tasks + t < length v.now }
    ensures { out.new ≡ column tasks v.now t events.now ++ drop (length events.now) out.old }
{
    for (i, e) in events.iter().enumerate() {
        out[i] = number(v, *e as usize, tasks, t);
    }
}

// The larger of `own` and the k-th least of the listed events' numbers for task t, which are gathered in `numbers`.
fn or_kth_of(
    v: &[u16],
    tasks: usize,
    t: usize,
    events: &[u16],
    k: u16,
    own: u16,
    numbers: &mut [u16],
) -> u16
    requires k_in_bounds { (k ≤ length events.now) × (length events.now ≤ most_events) × (most_events ≤ length numbers.old) }
    requires by_index { (i : ℕ) → i < length events.now → get_or events.now i 0 * tasks + t < length v.now }
    ensures { result ≡ max own (kth_least k (column tasks v.now t events.now)) }
{
    gather(v, tasks, t, events, numbers);
    let c = events.len();
    or_kth(&numbers[..c], k, own)
}

// Raises vector e, task by task, to the k-th least number of the listed events, of which there are k.
fn raise_each(v: &mut [u16], e: usize, tasks: usize, events: &[u16], k: u16) -> bool
    requires tasks_in_bounds { (e * tasks + tasks ≤ length v.old) × (k ≤ length events.now) × (length events.now ≤ most_events) }
    requires by_index { (i : ℕ) → i < length events.now → get_or events.now i 0 * tasks + tasks ≤ length v.old }
    ensures v_after { v.new ≡ raised_at v.old (e * tasks) (λ t. kth_least k (column tasks v.old t events.now)) tasks }
    ensures rose { Rose v.old v.new result }
{
    let at = e * tasks;
    let mut numbers = [0u16; MOST_EVENTS];
    let mut changed = false;
    for t in 0..tasks {
        let own = v[at + t];
        let y = or_kth_of(v, tasks, t, events, k, own, &mut numbers);
        changed |= raise_number(v, at + t, y);
    }
    changed
}

// Raises vector e, task by task, to the k-th least number of the listed events; fewer than k raise nothing.
// Answers whether any number rose.
pub fn raise_to_kth(v: &mut [u16], e: usize, tasks: usize, events: &[u16], k: u16) -> bool
    requires tasks_in_bounds { (e * tasks + tasks ≤ length v.old) × (length events.now ≤ most_events) }
    requires by_index { (i : ℕ) → i < length events.now → get_or events.now i 0 * tasks + tasks ≤ length v.old }
    ensures v_after { v.new ≡ raised_at v.old (e * tasks) (λ t. kth_least k (column tasks v.old t events.now)) tasks }
    ensures rose { Rose v.old v.new result }
{
    if events.len() < k as usize {
        return false;
    }
    raise_each(v, e, tasks, events, k)
}

// Writes a vector from place `at` on: x for task `own`, else 0.
pub fn fill_row(v: &mut [u16], at: usize, tasks: usize, own: usize, x: u16)
    requires { at + tasks ≤ length v.old }
    ensures { v.new ≡ sets v.old at (own_row tasks own x) }
{
    v[at..at + tasks].fill(0);
    if own < tasks {
        v[at + own] = x;
    }
}

#[cfg(test)]
mod tests {
    use super::*;

    // A recording's vectors are started over zeros (`passes`), so no program calls `fill_row`: a row of its own, and one whose task it
    // does not have.
    #[test]
    fn fills_a_row(rt: HostRuntime) {
        let mut v = [9; 5];
        fill_row(&mut v, 1, 3, 2, 7);
        assert_eq!(rt; v, [9, 0, 0, 7, 9]);
        fill_row(&mut v, 1, 3, 3, 7);
        assert_eq!(rt; v, [9, 0, 0, 0, 9]);
    }
}
