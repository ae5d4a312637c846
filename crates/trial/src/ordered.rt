// Jobs of plain accesses: with its events named by task and position, the list of such a job is the same
// in whatever order the job was recorded.
use calls::call::{Call, list_of, needed};
use calls::lists::{try_one, try_same_list};
use calls::tries::try_way;
use rows::bytes::{Bytes, at_least_one, product};
use rows::records::{Kind, Record, Shape, put_trailer};
use rows::tally::Trial;
use rows::text::value;

// Tasks with so many accesses each, and how the accesses go from cell to cell.
#[derive(Clone, Copy)]
struct Job {
    tasks: u16,
    each: u16,
    cells: u16,
    step: u16,
}

// Task by task, from the first or from the last on; or the tasks in turn, from the first, from the last, or in
// each round from the next one on.
#[derive(Clone, Copy)]
enum Order {
    Tasks,
    LastTasks,
    Rounds,
    LastRounds,
    NextRounds,
}

// An access: its task, and which of that task's it is.
#[derive(Clone, Copy)]
struct Turn {
    task: u16,
    turn: u16,
}

fn from_last(n: u16, i: u16) -> u16 {
    if i < n { n - 1 - i } else { 0 }
}

// Which access record e is.
fn turn_at(job: Job, order: Order, e: u16) -> Turn {
    let t = at_least_one(job.tasks);
    let n = at_least_one(job.each);
    let round = e / t;
    let (task, turn) = match order {
        Order::Tasks => (e / n, e % n),
        Order::LastTasks => (from_last(t, e / n), e % n),
        Order::Rounds => (e % t, round),
        Order::LastRounds => (from_last(t, e % t), round),
        Order::NextRounds => ((e % 1024 + round % 1024) % t, round),
    };
    Turn { task, turn }
}

// The access of a turn: two tasks share a cell, and one of four accesses is a read.
fn access(job: Job, t: Turn) -> Record {
    let task = t.task % 16;
    let turn = t.turn % 1024;
    let spread = product(job.step, turn + 1) % 1024 + task as usize / 2;
    let cells = job.cells as usize;
    let cell = if cells == 0 { 0 } else { spread % cells };
    let kind = if (task + turn) % 4 == 3 {
        Kind::Read
    } else {
        Kind::Write
    };
    Record {
        task,
        kind: kind as u16,
        object: (cell % 65536) as u16,
    }
}

// The job recorded in an order.
fn recorded(job: Job, order: Order) -> Bytes<4200> {
    let mut file = Bytes::new();
    let n = (product(job.tasks, job.each) % 65536) as u16;
    for e in 0..n {
        file.extend(&access(job, turn_at(job, order, e)).bytes());
    }
    let s = Shape {
        preamble: 0,
        events: n,
        tasks: job.tasks,
        semaphores: 0,
        flags: 0,
        cells: job.cells,
        edition: 1,
    };
    put_trailer(&mut file, 0, n as u32, s);
    file
}

// The job recorded in an order is accepted, and has the list that it has task by task; and both held
// together.
fn try_order(trial: &mut Trial, job: Job, order: Order, way: u32) {
    let first = recorded(job, Order::Tasks);
    let second = recorded(job, order);
    let one = first.written();
    let two = second.written();
    let call = Call::Together { one, two };
    try_same_list(trial, one, two);
    try_way(trial, call, needed(call), way);
    try_one(trial, two, 1, 0);
}

// A list of 512 entries names 1,024 events, from the last to the first, and all are sure.
fn counts_down(list: &[u16]) -> bool {
    list.chunks_exact(3).zip(0..512u16).all(|(entry, i)| {
        let last = 1023 - i % 512 * 2;
        entry == [last, last - 1, 1].as_slice()
    })
}

// With the last task first, the job has so many pairs, in a list that counts down or not.
fn finds(job: Job, pairs: u32, falling: bool) -> bool {
    let mut list = [0u16; 24576];
    let recorded = recorded(job, Order::LastRounds);
    let analyse = Call::Analyse {
        file: recorded.written(),
        budget: 1,
    };
    list_of(analyse, &mut list) == pairs && counts_down(&list) == falling
}

// `job TASKS EACH CELLS STEP [PAIRS FALLING]`: a job recorded in five orders; and how many pairs it
// has, and whether their events count down.
pub(crate) fn try_job(trial: &mut Trial, head: &[u8]) {
    let job = Job {
        tasks: value(head, 1),
        each: value(head, 2),
        cells: value(head, 3),
        step: value(head, 4),
    };
    let pairs = value(head, 5);
    if pairs != 0 {
        trial.count(finds(job, pairs, value::<usize>(head, 6) == 1), head);
    }
    try_order(trial, job, Order::Tasks, 0);
    try_order(trial, job, Order::LastTasks, 7);
    try_order(trial, job, Order::Rounds, 0);
    try_order(trial, job, Order::LastRounds, 7);
    try_order(trial, job, Order::NextRounds, 0);
}
