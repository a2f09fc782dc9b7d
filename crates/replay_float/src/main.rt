// Replays vectors with the answers of Rust's own operations, and says for each function how many
// there were and how many answers differ. tests/vectors/float.rs makes the list, which is read from
// standard input, and says what a record holds.
#![tactic(auto)]

ghost use Rattle.std.specs.Prelude.{◌≤◌, IfOk};

use layout::Field;
use replay::read_bytes;
use std::io;
use std::io::{Read, Write};

// How many records each function has.
const RECORDS: u32 = 2048;

// The lower half of a word, and the upper, for which std has no name.
fn low(w: u64) -> u32 {
    (w % 0x1_0000_0000) as u32
}

fn high(w: u64) -> u32 {
    (w / 0x1_0000_0000) as u32
}

// A coordinate is held as the pattern of its f64, and a refusal as its number.
fn coordinate_word(b: u64) -> u64 {
    match float::checked_coordinate_bits(b) {
        Ok(i) => float::f64_bits(i as f64),
        Err(refusal) => refusal.number() as u64,
    }
}

// The two words of the next record, and none past the end of the list.
fn read_record<R: Read>(list: &mut R) -> io::Result<Option<(u64, u64)>> {
    let mut record = [0u8; 16];
    if read_bytes(list, &mut record)? < 16 {
        return Ok(None);
    }
    Ok(Some((u64::at(&record, 0), u64::at(&record, 8))))
}

// How many records were read, and how many of their answers differ.
#[derive(Clone, Copy)]
struct Seen {
    read: u32,
    differ: u32,
}

// Replays the records of a function, of which `agrees` says whether it gives a record's answer.
fn replay<R: Read, F: Fn(u64, u64) -> bool>(list: &mut R, agrees: F) -> io::Result<Seen>
    requires { F.IsAlwaysCallable agrees }
    ensures { IfOk result (λ seen. (seen.read ≤ 2048) × (seen.differ ≤ 2048)) }
{
    let mut seen = Seen { read: 0, differ: 0 };
    for _ in 0..RECORDS {
        if let Some((a, b)) = read_record(list)? {
            seen.read += 1;
            if !agrees(a, b) {
                seen.differ += 1;
            }
        }
    }
    Ok(seen)
}

// Writes a function's line.
fn report<W: Write>(out: &mut W, name: &str, seen: Seen) -> io::Result<()> {
    writeln!(out, "{name} {}, {} differ", seen.read, seen.differ)
}

fn main(rt: HostRuntime) -> io::Result<()> {
    let list = &mut rt.reader();
    let out = &mut io::writer(&rt);
    let widen = replay(list, |a, b| float::widen_bits(low(a)) == b)?;
    report(out, "widen", widen)?;
    let narrow = replay(list, |a, b| float::narrow_bits(a) as u64 == b)?;
    report(out, "narrow", narrow)?;
    let mul_add = replay(list, |a, b| {
        float::mul_add_bits(low(a), high(a), low(b)) == high(b)
    })?;
    report(out, "mul_add", mul_add)?;
    let floor = replay(list, |a, b| float::floor_bits(a) == b)?;
    report(out, "floor", floor)?;
    let trunc = replay(list, |a, b| float::trunc_bits(a) == b)?;
    report(out, "trunc", trunc)?;
    let coordinate = replay(list, |a, b| coordinate_word(a) == b)?;
    report(out, "checked_coordinate", coordinate)
}
