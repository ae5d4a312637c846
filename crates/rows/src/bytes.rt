// Numbers and bytes in lent slices. A read past the end gives 0 and a write there does nothing, so
// that no index needs a proof.
ghost use Rattle.std.specs.Prelude.{◌≡◌, ◌+◌, ◌-◌, ◌%◌, ◌^◌, ◌≤◌, true, length};

use std::fmt;
use std::fmt::Write;

// What lent numbers and bytes hold before a call, so that what should not change is seen not to.
pub trait Marked: Copy + PartialEq {
    const MARK: Self;
}

impl Marked for u16 {
    const MARK: u16 = 43981;
}

impl Marked for u8 {
    const MARK: u8 = 171;
}

pub fn at<T: Copy + Default>(s: &[T], i: usize) -> T
    ensures { length s.now ≤ i → T.is_default result }
{
    s.get(i).copied().unwrap_or_default()
}

pub fn put<T: Drop>(s: &mut [T], i: usize, v: T)
    ensures { length s.new ≡ length s.old }
{
    if i < s.len() {
        s[i] = v;
    }
}

// Puts bytes at a place, as far as there is room.
pub fn put_all(s: &mut [u8], at: usize, bytes: &[u8])
    ensures { length s.new ≡ length s.old }
{
    let room = s.get_mut(at..).unwrap_or_default();
    for (to, from) in room.iter_mut().zip(bytes) {
        *to = *from;
    }
}

// The part from one place to another; empty where there is no such part.
pub fn part_of<T>(s: &[T], from: usize, to: usize) -> &[T]
    ensures result_in_bounds { length result.now ≤ length s.now }
    ensures result_len_bound { length result.now ≤ to - from }
{
    s.get(from..to).unwrap_or_default()
}

// The first n, or all where there are fewer.
pub fn first<T>(s: &mut [T], n: usize) -> &mut [T]
    ensures { length result.now ≤ n }
{
    let n = n.min(s.len());
    &mut s[..n]
}

// Both hold the same, and the mark from a place on.
pub fn same_left<T: Marked>(a: &[T], b: &[T], used: usize) -> bool
    ensures { result ≡ true → length a.now ≡ length b.now }
{
    a.len() == b.len() && a == b && part_of(a, used, a.len()).iter().all(|x| *x == T::MARK)
}

// Bytes written one after the other into a room of N.
#[derive(Drop)]
pub struct Bytes<const N: usize> {
    of: [u8; N],
    pub length: usize,
}

impl<const N: usize> Bytes<N> {
    pub fn new() -> Bytes<N>
        ensures { result.length ≡ 0 }
    {
        Bytes {
            of: [0; N],
            length: 0,
        }
    }

    // Where the room ends, the bytes are counted alone.
    pub fn extend(&mut self, bytes: &[u8])
        ensures counted { self.new.length ≡ (self.old.length + length bytes.now) % 2 ^ 64 }
        ensures at_most { self.new.length ≤ self.old.length + length bytes.now }
    {
        put_all(&mut self.of, self.length, bytes);
        self.length = self.length.wrapping_add(bytes.len());
    }

    pub fn push(&mut self, b: u8)
        ensures counted { self.new.length ≡ (self.old.length + 1) % 2 ^ 64 }
        ensures at_most { self.new.length ≤ self.old.length + 1 }
    {
        self.extend(&[b]);
    }

    // What was written; nothing where the room was too small for it.
    pub fn written(&self) -> &[u8]
        ensures { length result.now ≤ self.now.length }
    {
        part_of(&self.of, 0, self.length)
    }

    // The whole room, 0 where nothing was written.
    pub fn all(&self) -> &[u8]
        ensures { length result.now ≡ N }
    {
        &self.of
    }

    // What was written, as far as there was room, to be changed.
    pub fn room(&mut self) -> &mut [u8]
        ensures { length result.now ≤ self.old.length }
    {
        let n = self.length;
        let of = &mut self.of;
        first(&mut of[..], n)
    }
}

impl<const N: usize> Write for Bytes<N> {
    fn write_str(&mut self, s: &str) -> fmt::Result {
        self.extend(s.as_bytes());
        Ok(())
    }
}

// The product of two numbers of 16 bits.
pub fn product(n: u16, t: u16) -> usize
    ensures { result ≤ 4294836225 }
{
    n as usize * t as usize
}

pub fn at_least_one(n: u16) -> u16
    ensures { 1 ≤ result }
{
    n.max(1)
}
