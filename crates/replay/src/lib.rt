// What the replay programs share: a list is read from an input, in little-endian words of 32 bits, and counts are written.
// Each read takes what it needs, so that a list may be of any length and none of it is held. Where the list is known, which standard input is not,
// what is read is what stands at its front.
#![tactic(auto)]

ghost use Rattle.std.specs.Prelude.{◌≡◌, ◌≢◌, ◌+◌, ◌*◌, ◌≤◌, ◌++◌, ℕ, List, min, set, length, take, drop, OnOk, IfOk, IfErr, Some, IfSome};
ghost use Rattle.std.specs.Fmt.{decimal};
ghost use Rattle.std.specs.Io.KnownBytes.{Appends};
ghost use Rattle.std.specs.IoError.{error_kind};
ghost use Rattle.layout.specs.Bytes.{u32_at, i32_at, f32_at};
ghost use Rattle.replay.specs.Words.{byte_word};
ghost use Rattle.replay.specs.WordLaws.{byte_front, word_front, number_front, float_front};
ghost use Rattle.replay.specs.Filled.{filled};

use input::read_full;
use layout::Field;
use std::io;
use std::io::{ErrorKind, Read, Write};

// How many cases a list may have.
const MOST: u32 = 4096;

// ---- words

// Fills lent bytes, and says how many there were: fewer than asked for where the list ends.
// The clause `retried` stands with each reader: the error is std's type, which says nothing of its kind by itself.
pub fn read_bytes<R: Read>(list: &mut R, bytes: &mut [u8]) -> io::Result<usize>
    ensures within { IfOk result (λ n. n ≤ length bytes.old) }
    ensures count { IfOk result (λ n. IfSome (R.remaining list.old) (λ all. n ≡ min (length all) (length bytes.old))) }
    ensures filled { IfOk result (λ n. IfSome (R.remaining list.old) (λ all. take n bytes.new ≡ take (length bytes.old) all)) }
    ensures rest { OnOk result (IfSome (R.remaining list.old) (λ all. R.remaining list.new ≡ Some (drop (length bytes.old) all))) }
    ensures retried { IfErr result (λ e. error_kind e ≢ ErrorKind.Interrupted) }
{
    read_full(list, bytes)
}

// What the four bytes of a word say: a byte is the lowest of them.
pub trait Word: Copy {
    ghost word: { List ℕ → ℕ → Self };

    fn word_at(b: &[u8], at: usize) -> Self
        ensures { result ≡ word b.now at };

    // A word that lies in the first k bytes is that of these bytes.
    ghost front: { (k : ℕ) (all : List ℕ) (at : ℕ) → at + 4 ≤ k → word (take k all) at ≡ word all at };
}

impl Word for u8 {
    ghost word = { byte_word };

    ghost front = { byte_front };

    fn word_at(b: &[u8], at: usize) -> u8 {
        (u32::at(b, at) % 256) as u8
    }
}

impl Word for u32 {
    ghost word = { u32_at };

    ghost front = { word_front };

    fn word_at(b: &[u8], at: usize) -> u32 {
        u32::at(b, at)
    }
}

impl Word for i32 {
    ghost word = { i32_at };

    ghost front = { number_front };

    fn word_at(b: &[u8], at: usize) -> i32 {
        i32::at(b, at)
    }
}

impl Word for f32 {
    ghost word = { f32_at };

    ghost front = { float_front };

    fn word_at(b: &[u8], at: usize) -> f32 {
        f32::at(b, at)
    }
}

// The next word of a list. Bytes past the end count as 0.
pub fn read_word<T: Word, R: Read>(list: &mut R) -> io::Result<T>
    ensures word { IfOk result (λ word. IfSome (R.remaining list.old) (λ all. word ≡ T.word all 0)) }
    ensures rest { OnOk result (IfSome (R.remaining list.old) (λ all. R.remaining list.new ≡ Some (drop 4 all))) }
    ensures retried { IfErr result (λ e. error_kind e ≢ ErrorKind.Interrupted) }
{
    let mut b = [0u8; 4];
    let n = read_bytes(list, &mut b)?;
    Ok(T::word_at(&b[..n], 0))
}

// How many cases are replayed: the first word of the list, and no more than 4,096.
pub fn read_cases<R: Read>(list: &mut R) -> io::Result<u32>
    ensures bound { IfOk result (λ cases. cases ≤ 4096) }
    ensures value { IfOk result (λ cases. IfSome (R.remaining list.old) (λ all. cases ≡ min (u32_at all 0) 4096)) }
    ensures rest { OnOk result (IfSome (R.remaining list.old) (λ all. R.remaining list.new ≡ Some (drop 4 all))) }
    ensures retried { IfErr result (λ e. error_kind e ≢ ErrorKind.Interrupted) }
{
    Ok(read_word::<u32, R>(list)?.min(MOST))
}

// ---- tables

// A place of a table, and what stands there.
#[derive(Clone, Copy)]
pub struct Placed<T> {
    pub at: usize,
    pub value: T,
}

pub fn read_placed<T: Word, R: Read>(list: &mut R) -> io::Result<Placed<T>>
    ensures at { IfOk result (λ placed. IfSome (R.remaining list.old) (λ all. placed.at ≡ u32_at all 0)) }
    ensures value { IfOk result (λ placed. IfSome (R.remaining list.old) (λ all. placed.value ≡ T.word all 4)) }
    ensures rest { OnOk result (IfSome (R.remaining list.old) (λ all. R.remaining list.new ≡ Some (drop 8 all))) }
    ensures retried { IfErr result (λ e. error_kind e ≢ ErrorKind.Interrupted) }
{
    let mut b = [0u8; 8];
    let n = read_bytes(list, &mut b)?;
    let b = &b[..n];
    Ok(Placed {
        at: u32::at(b, 0) as usize,
        value: T::word_at(b, 4),
    })
}

// A place past the end of a table is passed over.
fn put<T: Copy>(table: &mut [T], placed: Placed<T>)
    ensures { table.new ≡ set table.old placed.at placed.value }
{
    if placed.at < table.len() {
        table[placed.at] = placed.value;
    }
}

// The next n words of a table, each read with its place.
pub fn fill<T: Word, R: Read>(list: &mut R, n: u32, table: &mut [T]) -> io::Result<()>
    ensures table { OnOk result (IfSome (R.remaining list.old) (λ all. table.new ≡ filled (λ rest. T.word rest 4) n all table.old)) }
    ensures rest { OnOk result (IfSome (R.remaining list.old) (λ all. R.remaining list.new ≡ Some (drop (8 * n) all))) }
    ensures retried { IfErr result (λ e. error_kind e ≢ ErrorKind.Interrupted) }
{
    for _ in 0..n {
        let placed = read_placed(list)?;
        put(table, placed);
    }
    Ok(())
}

// The first n of a table, or all of it.
pub fn first<T>(table: &[T], n: usize) -> &[T]
    ensures { result.now ≡ take n table.now }
{
    table.get(..n).unwrap_or(table)
}

// ---- counts

// Writes a number and what it counts.
pub fn report<W: Write>(out: &mut W, n: u32, what: &[u8]) -> io::Result<()>
    ensures { OnOk result (Appends (W.contents out.old) (W.contents out.new) (decimal n ++ what.now)) }
{
    write!(out, "{n}")?;
    out.write_all(what)
}
