// Rows of the input, which stands in a program's file `stdin`. A row is a line: its kind and numbers,
// then its sections, each behind a '|'; words stand between spaces, and what follows '#' is a comment. A
// line that starts with '=' names the group of the rows after it.
ghost use Rattle.std.specs.Prelude.{◌≡◌, ◌%◌, ◌^◌, ◌≤◌, ℕ, true, length};

use crate::bytes::at;

// Section k of a row; the kind and its numbers are section 0.
pub fn section(row: &[u8], k: usize) -> &[u8]
    ensures { length result.now ≤ length row.now }
{
    row.split(|c| *c == b'|').nth(k).unwrap_or_default()
}

pub fn is_space(c: &u8) -> bool
    ensures { result ≡ true → c.now ≡ 32 }
{
    *c == b' '
}

// What stands between two spaces, where that is not nothing.
pub fn is_word(w: &&[u8]) -> bool
    ensures { result ≡ true → 1 ≤ length w.now.now }
{
    !w.is_empty()
}

// Word k of a section; empty where there are fewer.
pub fn word(s: &[u8], k: usize) -> &[u8]
    ensures { length result.now ≤ length s.now }
{
    s.split(is_space).filter(is_word).nth(k).unwrap_or_default()
}

pub fn digit(text: &[u8], i: usize) -> u8
    ensures { result ≤ 207 }
{
    at(text, i).saturating_sub(b'0')
}

// A number that a word may stand for; of a larger one what fits.
pub trait Number: Drop {
    ghost cut: { ℕ → Self };

    fn cut(n: usize) -> Self
        ensures { result ≡ cut n };
}

impl Number for usize {
    ghost cut = { λ n. n };

    fn cut(n: usize) -> usize {
        n
    }
}

impl Number for u32 {
    ghost cut = { λ n. n % 2 ^ 32 };

    fn cut(n: usize) -> u32 {
        (n % 4294967296) as u32
    }
}

impl Number for u8 {
    ghost cut = { λ n. n % 2 ^ 8 };

    fn cut(n: usize) -> u8 {
        (n % 256) as u8
    }
}

impl Number for u16 {
    ghost cut = { λ n. n % 2 ^ 16 };

    fn cut(n: usize) -> u16 {
        (n % 65536) as u16
    }
}

// Word k as a number; 0 where there is none.
pub fn value<T: Number>(s: &[u8], k: usize) -> T
    ensures { length s.now ≡ 0 → result ≡ T.cut 0 }
{
    let mut n: usize = 0;
    for c in word(s, k) {
        let digit = c.saturating_sub(b'0');
        n = (n % 1844674407370955162 * 10).wrapping_add(digit as usize);
    }
    T::cut(n)
}
