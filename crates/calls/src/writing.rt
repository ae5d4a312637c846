// Ways of writing what a file holds: with the output that is needed, and with other ones; with too
// little for the level bytes; with a record byte less; with a start byte less and one more; in another
// edition; with a post byte less and one more; and with a post count of 0.
ghost use Rattle.std.specs.Prelude.{◌≡◌, ◌≤◌};

use crate::call::{Call, Lent, Size};
use crate::reading::counts_of;
use crate::tries::try_lent;
use rows::bytes::part_of;
use rows::tally::Trial;
use second::{Counts, Parts};

#[derive(Clone, Copy)]
enum Way {
    Out(Size),
    NoLevels,
    CutRecord,
    Starts(Size),
    OtherEdition,
    Posts(Size),
    ZeroPost,
}

const WAYS: [Way; 13] = [
    Way::Out(Size::Needed),
    Way::Out(Size::Ample),
    Way::NoLevels,
    Way::Out(Size::Less),
    Way::Out(Size::More),
    Way::Out(Size::Nothing),
    Way::CutRecord,
    Way::Starts(Size::Less),
    Way::Starts(Size::More),
    Way::OtherEdition,
    Way::Posts(Size::Less),
    Way::Posts(Size::More),
    Way::ZeroPost,
];

// Post bytes of which the last is 0.
const LAST_ZERO: [u8; 64] = [
    1, 1, 1, 1, 1, 1, 1, 1, 1, 1, 1, 1, 1, 1, 1, 1, 1, 1, 1, 1, 1, 1, 1, 1, 1, 1, 1, 1, 1, 1, 1, 1,
    1, 1, 1, 1, 1, 1, 1, 1, 1, 1, 1, 1, 1, 1, 1, 1, 1, 1, 1, 1, 1, 1, 1, 1, 1, 1, 1, 1, 1, 1, 1, 0,
];

// An output of so many bytes, and nothing else.
pub fn output(n: usize) -> Lent
    ensures { result.out ≡ n }
{
    Lent {
        work: 0,
        other: 0,
        list: 0,
        out: n,
    }
}

// What a file holds: its records, its counts, and its level bytes with those behind them; the start bytes are
// the first n of them, and the post bytes the next, up to an end.
#[derive(Clone, Copy)]
struct Held<'a> {
    records: &'a [u8],
    counts: Counts,
    levels: &'a [u8],
    n: usize,
    end: usize,
}

impl<'a> Held<'a> {
    // What an accepted file holds; where its trailer is refused, all of it but the trailer, with counts of a
    // small recording.
    fn by(file: &'a [u8]) -> Held<'a> {
        let Ok(r) = second::trailer(file) else {
            let cut = file.len().saturating_sub(16);
            return Held {
                records: part_of(file, 0, cut),
                counts: Counts {
                    tasks: 4,
                    semaphores: 2,
                    cells: 3,
                    edition: 1,
                },
                levels: part_of(file, cut, file.len()),
                n: 0,
                end: 0,
            };
        };
        let start = r.start % 4294967296;
        let end = start + r.events as usize * 4;
        Held {
            records: part_of(file, start, end),
            counts: counts_of(r),
            levels: part_of(file, end, file.len()),
            n: r.starts as usize,
            end: r.starts as usize + r.flags as usize,
        }
    }

    // As many post bytes as there are, or one, of which the last is 0.
    fn zero_posts(self) -> &'a [u8] {
        let posts = part_of(self.levels, self.n, self.end).len().max(1);
        part_of(&LAST_ZERO, 64 - posts % 65, 64)
    }

    // What is written in one of the ways.
    fn parts(self, way: Way) -> Parts<'a> {
        let parts = Parts {
            records: self.records,
            starts: part_of(self.levels, 0, self.n),
            posts: part_of(self.levels, self.n, self.end),
        };
        match way {
            Way::CutRecord => Parts {
                records: part_of(self.records, 0, self.records.len().saturating_sub(1)),
                ..parts
            },
            Way::Starts(size) => Parts {
                starts: part_of(self.levels, 0, size.of(self.n)),
                ..parts
            },
            Way::Posts(size) => Parts {
                posts: part_of(self.levels, self.n, size.of(self.end)),
                ..parts
            },
            Way::ZeroPost => Parts {
                posts: self.zero_posts(),
                ..parts
            },
            Way::Out(_) | Way::NoLevels | Way::OtherEdition => parts,
        }
    }

    // The counts in one of the ways.
    fn counts(self, way: Way) -> Counts {
        let counts = self.counts;
        match way {
            Way::OtherEdition => Counts {
                edition: counts.edition % 3 + 1,
                ..counts
            },
            _ => counts,
        }
    }

    // The output in one of the ways.
    fn out(self, way: Way) -> Lent {
        let all = part_of(self.levels, 0, self.end).len();
        let bare = self.records.len().wrapping_add(16);
        let whole = bare.wrapping_add(all);
        output(match way {
            Way::NoLevels => bare,
            Way::Out(size) => size.of(whole),
            _ => Size::Ample.of(whole),
        })
    }
}

fn try_held(trial: &mut Trial, held: Held, way: Way)
    ensures { trial.old.tally.wrong ≤ trial.new.tally.wrong }
{
    let call = Call::Write {
        parts: held.parts(way),
        counts: held.counts(way),
    };
    try_lent(trial, call, held.out(way));
}

// Writing what a file holds in one of the ways.
pub(crate) fn try_writing_way(trial: &mut Trial, file: &[u8], way: u32)
    ensures { trial.old.tally.wrong ≤ trial.new.tally.wrong }
{
    try_held(trial, Held::by(file), WAYS[(way % 13) as usize]);
}

// Writing in each of the ways.
pub fn try_writing(trial: &mut Trial, file: &[u8])
    ensures { trial.old.tally.wrong ≤ trial.new.tally.wrong }
{
    for way in WAYS {
        try_held(trial, Held::by(file), way);
    }
}
