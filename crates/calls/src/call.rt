// One call of the library and of the second analyser: their answers in one form, and how much memory it
// needs.
ghost use Rattle.std.specs.Prelude.{◌≡◌, ◌+◌, ◌≤◌, length};

use crate::told::{Answer, Told, analysed, fault, joint, leads, length, pairs, related, turned};
use model::Refusal;
use rows::bytes::{at, product};
use second::{Counts, Parts, Stretch};

// ---- a call

// A call with its file or files, or with the parts of a file that is written.
#[derive(Clone, Copy)]
pub enum Call<'a> {
    Analyse {
        file: &'a [u8],
        budget: u32,
    },
    Ask {
        file: &'a [u8],
        a: usize,
        b: usize,
        budget: u32,
    },
    Reversed {
        file: &'a [u8],
        chosen: usize,
        other: usize,
    },
    Together {
        one: &'a [u8],
        two: &'a [u8],
    },
    // Two files both ways round: the library against itself.
    Turned {
        one: &'a [u8],
        two: &'a [u8],
    },
    Write {
        parts: Parts<'a>,
        counts: Counts,
    },
    Compare {
        file: &'a [u8],
        one: Stretch,
        other: Stretch,
        budget: u32,
    },
}

impl<'a> Call<'a> {
    // The file or the files; the records and the start bytes of a file that is written.
    pub(crate) fn files(self) -> (&'a [u8], &'a [u8]) {
        match self {
            Call::Analyse { file, .. }
            | Call::Ask { file, .. }
            | Call::Reversed { file, .. }
            | Call::Compare { file, .. } => (file, b""),
            Call::Together { one, two } | Call::Turned { one, two } => (one, two),
            Call::Write { parts, .. } => (parts.records, parts.starts),
        }
    }

    // As many work numbers as it needs for each file.
    pub(crate) fn work(self) -> (usize, usize)
        ensures { result.0 ≤ 8589672450 }
    {
        if let Call::Write { .. } = self {
            return (0, 0);
        }
        let (one, two) = self.files();
        (work_needed(one), work_needed(two))
    }

    // As many list numbers as so many pairs take.
    pub(crate) fn entries(self, pairs: u32) -> usize {
        match self {
            Call::Together { .. } | Call::Turned { .. } => pairs as usize * 5,
            _ => pairs as usize * 3,
        }
    }
}

// ---- the call, by either side

// A stretch in the library's form.
fn stretch(s: Stretch) -> stretches::Stretch {
    stretches::Stretch {
        task: s.task,
        first: s.first,
        last: s.last,
    }
}

fn our_write(parts: Parts, counts: Counts, out: &mut [u8]) -> Result<usize, Refusal> {
    recording::write(
        parts.records,
        counts.tasks,
        counts.semaphores,
        counts.cells,
        counts.edition,
        parts.starts,
        parts.posts,
        out,
    )
}

pub(crate) fn ours(
    call: Call,
    work: &mut [u16],
    more: &mut [u16],
    list: &mut [u16],
    out: &mut [u8],
) -> Told {
    let answer = match call {
        Call::Analyse { file, budget } => analysis::analyse(file, budget, work, list).map(analysed),
        Call::Ask { file, a, b, budget } => analysis::ask(file, a, b, budget, work).map(related),
        Call::Reversed {
            file,
            chosen,
            other,
        } => reversed::write_reversed(file, chosen, other, work, out).map(Answer::Length),
        Call::Together { one, two } => {
            together::analyse_both(one, two, work, more, list).map(joint)
        }
        Call::Turned { one, two } => {
            return turned(together::analyse_both(one, two, work, more, list));
        }
        Call::Write { parts, counts } => our_write(parts, counts, out).map(Answer::Length),
        Call::Compare {
            file,
            one,
            other,
            budget,
        } => stretches::compare(file, stretch(one), stretch(other), budget, work).map(leads),
    };
    answer.map_err(fault)
}

pub(crate) fn theirs(
    call: Call,
    work: &mut [u16],
    more: &mut [u16],
    list: &mut [u16],
    out: &mut [u8],
) -> Told {
    let answer = match call {
        Call::Analyse { file, budget } => {
            second::analyse(file, budget, work, list).map(Answer::Analysed)
        }
        Call::Ask { file, a, b, budget } => {
            second::ask(file, a, b, budget, work).map(Answer::Related)
        }
        Call::Reversed {
            file,
            chosen,
            other,
        } => second::write_reversed(file, chosen, other, work, out).map(Answer::Length),
        Call::Together { one, two } => {
            second::together(one, two, work, more, list).map(Answer::Pairs)
        }
        Call::Turned { one, two } => {
            return turned(together::analyse_both(two, one, more, work, list));
        }
        Call::Write { parts, counts } => second::write(parts, counts, out).map(Answer::Length),
        Call::Compare {
            file,
            one,
            other,
            budget,
        } => second::compare(file, one, other, budget, work).map(Answer::Leads),
    };
    answer.map_err(Some)
}

// What one side answers with as many work numbers as are needed.
fn tell<F: Fn(Call, &mut [u16], &mut [u16], &mut [u16], &mut [u8]) -> Told>(
    side: &F,
    call: Call,
    list: &mut [u16],
    out: &mut [u8],
) -> Told
    requires { F.IsAlwaysCallable side.now }
{
    let (one, two) = call.work();
    if one.max(two) <= 4096 {
        return side(call, &mut [0; 4096], &mut [0; 4096], list, out);
    }
    side(call, &mut [0; 32768], &mut [0; 32768], list, out)
}

// The library's answer with enough work numbers.
pub fn answer(call: Call, list: &mut [u16], out: &mut [u8]) -> Told
    ensures { length list.new ≡ length list.old }
{
    tell(&ours, call, list, out)
}

// The second analyser's answer with enough work numbers.
pub fn their_answer(call: Call, list: &mut [u16], out: &mut [u8]) -> Told
    ensures { length list.new ≡ length list.old }
{
    tell(&theirs, call, list, out)
}

// The library's list, of one file or of two; how many pairs it has, or would need room for.
pub fn list_of(call: Call, list: &mut [u16]) -> u32
    ensures { length list.new ≡ length list.old }
{
    pairs(answer(call, list, &mut [0; 1]))
}

// ---- lent memory

// How many work numbers are lent, how many for the second file, how many list numbers, and how many
// bytes of output.
#[derive(Clone, Copy)]
pub struct Lent {
    pub work: usize,
    pub other: usize,
    pub list: usize,
    pub out: usize,
}

// As many work numbers as a file needs: 2 × N × T.
fn work_needed(file: &[u8]) -> usize
    ensures { result ≤ 8589672450 }
{
    let r = second::trailer(file).unwrap_or_default();
    product(r.events, r.tasks) * 2
}

// As many list numbers as a call needs, up to 8,192 entries: what the second analyser answers with
// enough work numbers and no list.
fn slots_needed(call: Call) -> usize {
    let told = their_answer(call, &mut [0; 1], &mut [0; 1]);
    call.entries(pairs(told).min(8192))
}

// As many bytes as a recording of these parts needs.
pub fn length_of(parts: Parts) -> usize
    ensures { let p = parts.entry in
        result ≤ length p.records.now + length p.starts.now + length p.posts.now + 16 }
{
    let levels = parts.starts.len().wrapping_add(parts.posts.len());
    parts.records.len().wrapping_add(levels).wrapping_add(16)
}

// The parts of a file that the library reads.
pub(crate) fn parts_of(file: &[u8]) -> Parts<'_> {
    Parts {
        records: recording::records(file),
        starts: recording::starts(file),
        posts: recording::posts(file),
    }
}

// What a call needs.
pub fn needed(call: Call) -> Lent
    ensures { result.work ≤ 8589672450 }
{
    let (work, other) = call.work();
    let (list, out) = match call {
        Call::Reversed { file, .. } => (0, length_of(parts_of(file))),
        Call::Write { parts, .. } => (0, length_of(parts)),
        Call::Ask { .. } | Call::Compare { .. } => (0, 0),
        _ => (slots_needed(call), 0),
    };
    Lent {
        work,
        other,
        list,
        out,
    }
}

// ---- sizes of lent memory

// As much as is needed, one less, one more, nine more, or none.
#[derive(Clone, Copy)]
pub enum Size {
    Needed,
    Less,
    More,
    Ample,
    Nothing,
}

impl Size {
    // The size that a row names by this letter.
    fn named(letter: u8) -> Size {
        match letter {
            b'-' => Size::Less,
            b'+' => Size::More,
            b'9' => Size::Ample,
            b'0' => Size::Nothing,
            _ => Size::Needed,
        }
    }

    pub(crate) fn of(self, needed: usize) -> usize {
        match self {
            Size::Needed => needed,
            Size::Less => needed.saturating_sub(1),
            Size::More => needed.wrapping_add(1),
            Size::Ample => needed.wrapping_add(9),
            Size::Nothing => 0,
        }
    }
}

// Sizes of the four memories.
pub type Sizes = [Size; 4];

const WHOLE: Size = Size::Needed;

const LESS: Size = Size::Less;

const NOTHING: Size = Size::Nothing;

// As many sizes as a call is tried with.
pub const WAYS: u32 = 8;

const SIZES: [Sizes; 8] = [
    [WHOLE; 4],
    [Size::Ample; 4],
    [LESS, WHOLE, WHOLE, WHOLE],
    [WHOLE, WHOLE, LESS, LESS],
    [Size::More; 4],
    [NOTHING; 4],
    [WHOLE, LESS, WHOLE, NOTHING],
    [LESS; 4],
];

// The sizes that four letters of a row name.
pub(crate) fn sizes_in(letters: &[u8]) -> Sizes {
    [
        Size::named(at(letters, 0)),
        Size::named(at(letters, 1)),
        Size::named(at(letters, 2)),
        Size::named(at(letters, 3)),
    ]
}

impl Lent {
    pub(crate) fn sized(self, sizes: Sizes) -> Lent {
        let [work, other, list, out] = sizes;
        Lent {
            work: work.of(self.work),
            other: other.of(self.other),
            list: list.of(self.list),
            out: out.of(self.out),
        }
    }

    // The sizes of one of the ways.
    pub(crate) fn sized_by(self, way: u32) -> Lent {
        self.sized(SIZES[(way % WAYS) as usize])
    }
}
