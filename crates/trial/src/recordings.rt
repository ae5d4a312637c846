// Recordings that rows describe: counts, level bytes, and events in the notation of document 01.
use rows::bytes::{Bytes, at, part_of, product};
use rows::records::{Kind, Shape, put_trailer};
use rows::text::{digit, is_space, is_word, section, value};

// Counts: tasks, semaphores, flags, cells, edition.
pub(crate) fn shape_of(s: &[u8]) -> Shape {
    Shape {
        preamble: 0,
        events: 0,
        tasks: value(s, 0),
        semaphores: value(s, 1),
        flags: value(s, 2),
        cells: value(s, 3),
        edition: value(s, 4),
    }
}

// Puts the numbers of a section, a byte each; '-' stands for none.
pub(crate) fn put_levels<const N: usize>(out: &mut Bytes<N>, s: &[u8]) {
    for word in s.split(is_space).filter(is_word).take(130) {
        if word.first() == Some(&b'-') {
            return;
        }
        out.push(value(word, 0));
    }
}

// The kind of an event by its letter: O is a post, G a flag wait, r and w are accesses by a single
// instruction; x, y and z are no kinds.
fn kind_of(letter: u8) -> u8 {
    let kind = match letter {
        b'S' => Kind::Signal,
        b'P' => Kind::Wait,
        b'F' => Kind::Fork,
        b'J' => Kind::Join,
        b'R' => Kind::Read,
        b'W' => Kind::Write,
        b'O' => Kind::Post,
        b'G' => Kind::FlagWait,
        b'r' => Kind::SingleRead,
        b'w' => Kind::SingleWrite,
        b'y' => return 11,
        b'z' => return 255,
        _ => return 0,
    };
    kind as u8
}

// Puts the bytes that stand so many before the end again, so many of them.
fn put_again<const N: usize>(file: &mut Bytes<N>, back: usize, n: usize) {
    for i in 0..n {
        let from = file.length.wrapping_sub(back);
        file.push(at(file.written(), from));
    }
}

// Puts one event, its task, a letter and its object; or, as 2*9, the last two events nine times more.
fn put_event<const N: usize>(file: &mut Bytes<N>, w: &[u8]) {
    if at(w, 1) == b'*' {
        let back = digit(w, 0) as u16 * 4;
        let times = value(part_of(w, 2, w.len()), 0);
        return put_again(file, back as usize, product(back, times));
    }
    file.extend(&[digit(w, 0), kind_of(at(w, 1)), digit(w, 2), 0]);
}

// Puts events in the notation of document 01.
pub(crate) fn put_events<const N: usize>(file: &mut Bytes<N>, s: &[u8]) {
    for word in s.split(is_space).filter(is_word).take(99) {
        put_event(file, word);
    }
}

// The recording of three sections from section k on: counts, level bytes, events.
pub(crate) fn recording_in<const N: usize>(row: &[u8], k: u8) -> Bytes<N> {
    let k = k as usize;
    let mut file = Bytes::new();
    put_events(&mut file, section(row, k + 2));
    let n = (file.length / 4 % 65536) as u32;
    put_levels(&mut file, section(row, k + 1));
    put_trailer(&mut file, 0, n, shape_of(section(row, k)));
    file
}
