// Runs the fields, the reads and the mask bits at every boundary of their bytes and compares each answer with the value listed here:
// no bytes, one byte short, just enough, one byte more, and places near 2^64, where place and width pass 2^64.
// A field past the end counts its missing bytes as 0; a read of one is refused with 5.
#![tactic(auto)]

ghost use Rattle.std.specs.Prelude.{◌≡◌};

use layout::Field;
use replay::{first, report};
use std::io;

// How many answers were compared, and how many of them were not as listed.
#[derive(Clone, Copy, Default)]
struct Tally {
    reads: u32,
    differ: u32,
}

impl Tally {
    fn count(&mut self, same: bool) {
        self.reads = self.reads.wrapping_add(1);
        if !same {
            self.differ = self.differ.wrapping_add(1);
        }
    }
}

// A place of the first n bytes: n, the place, whether the field there lies wholly in them, and its value. A float's is its pattern.
type Case<V> = (usize, usize, bool, V);

// The field and the read at each place.
fn try_fields<T: Field, V: Copy + PartialEq, F: Fn(T) -> V>(
    tally: &mut Tally,
    s: &[u8],
    cases: &[Case<V>],
    value_of: F,
)
    requires { F.IsAlwaysCallable value_of }
{
    for (n, at, inside, value) in cases {
        let b = first(s, *n);
        tally.count(value_of(T::at(b, *at)) == *value);
        match layout::read::<T>(b, *at) {
            Ok(v) => tally.count(*inside && value_of(v) == *value),
            Err(e) => tally.count(!*inside && e.number() == 5),
        }
    }
}

const BOUNDARIES_U32: [Case<u32>; 12] = [
    (0, 0, false, 0),
    (3, 0, false, 197121),
    (4, 0, true, 2214789633),
    (4, 1, false, 8651522),
    (4, 3, false, 132),
    (4, 4, false, 0),
    (5, 0, true, 2214789633),
    (5, 1, true, 92537602),
    (5, 2, false, 361475),
    (4, 18446744073709551612, false, 0),
    (5, 18446744073709551612, false, 0),
    (5, 18446744073709551615, false, 0),
];

const BOUNDARIES_U64: [Case<u64>; 12] = [
    (0, 0, false, 0),
    (7, 0, false, 1976945596367361),
    (8, 0, true, 9801809734754566657),
    (8, 1, false, 38288319276385026),
    (8, 7, false, 136),
    (8, 8, false, 0),
    (9, 0, true, 9801809734754566657),
    (9, 1, true, 686806665617736450),
    (9, 2, false, 2682838537569283),
    (8, 18446744073709551608, false, 0),
    (9, 18446744073709551608, false, 0),
    (9, 18446744073709551615, false, 0),
];

const BOUNDARIES_I32: [Case<i32>; 12] = [
    (0, 0, false, 0),
    (3, 0, false, 197121),
    (4, 0, true, -2080177663),
    (4, 1, false, 8651522),
    (4, 3, false, 132),
    (4, 4, false, 0),
    (5, 0, true, -2080177663),
    (5, 1, true, 92537602),
    (5, 2, false, 361475),
    (4, 18446744073709551612, false, 0),
    (5, 18446744073709551612, false, 0),
    (5, 18446744073709551615, false, 0),
];

const BOUNDARIES_I64: [Case<i64>; 12] = [
    (0, 0, false, 0),
    (7, 0, false, 1976945596367361),
    (8, 0, true, -8644934338954984959),
    (8, 1, false, 38288319276385026),
    (8, 7, false, 136),
    (8, 8, false, 0),
    (9, 0, true, -8644934338954984959),
    (9, 1, true, 686806665617736450),
    (9, 2, false, 2682838537569283),
    (8, 18446744073709551608, false, 0),
    (9, 18446744073709551608, false, 0),
    (9, 18446744073709551615, false, 0),
];

// Zeros, a half, the smallest and the greatest, the infinities, and three patterns that are a NaN.
const KINDS_F32: [Case<u32>; 10] = [
    (40, 0, true, 0),
    (40, 4, true, 2147483648),
    (40, 8, true, 1056964608),
    (40, 12, true, 1),
    (40, 16, true, 4286578687),
    (40, 20, true, 2139095040),
    (40, 24, true, 4286578688),
    (40, 28, true, 2143289344),
    (40, 32, true, 2143289344),
    (40, 36, true, 2143289344),
];

const KINDS_F64: [Case<u64>; 10] = [
    (80, 0, true, 0),
    (80, 8, true, 9223372036854775808),
    (80, 16, true, 4602678819172646912),
    (80, 24, true, 1),
    (80, 32, true, 18442240474082181119),
    (80, 40, true, 9218868437227405312),
    (80, 48, true, 18442240474082181120),
    (80, 56, true, 9221120237041090560),
    (80, 64, true, 9221120237041090560),
    (80, 72, true, 9221120237041090560),
];

// Zero, one, and the ends of both signs.
const SIGNS_I32: [Case<i32>; 6] = [
    (24, 0, true, 0),
    (24, 4, true, 1),
    (24, 8, true, 2147483647),
    (24, 12, true, -2147483648),
    (24, 16, true, -2147483647),
    (24, 20, true, -1),
];

const SIGNS_I64: [Case<i64>; 6] = [
    (48, 0, true, 0),
    (48, 8, true, 1),
    (48, 16, true, 9223372036854775807),
    (48, 24, true, -9223372036854775808),
    (48, 32, true, -9223372036854775807),
    (48, 40, true, -1),
];

// How many bytes, where the mask stands, the bit's number, and the bit.
const BITS: [(usize, usize, usize, u32); 22] = [
    (3, 0, 0, 1),
    (3, 0, 1, 0),
    (3, 0, 7, 1),
    (3, 0, 8, 0),
    (3, 0, 9, 1),
    (3, 0, 15, 0),
    (3, 0, 16, 1),
    (3, 0, 23, 1),
    (3, 1, 0, 0),
    (3, 1, 1, 1),
    (3, 1, 8, 1),
    (3, 2, 7, 1),
    (0, 0, 0, 0),
    (2, 0, 15, 0),
    (2, 0, 16, 0),
    (3, 0, 24, 0),
    (3, 2, 8, 0),
    (3, 3, 0, 0),
    (3, 18446744073709551615, 0, 0),
    (3, 18446744073709551615, 8, 0),
    (3, 18446744073709551615, 18446744073709551615, 0),
    (3, 0, 18446744073709551615, 0),
];

// What needs no run: these follow from the contracts alone.
#[tactic(auto, unfolding(layout::specs::Bytes::le))]
fn proved() {
    prove!(u32::at(b"\x01\x02\x03\x84", 0) == 2214789633);
    prove!(u32::at(b"\x01\x02\x03\x84", 2) == 33795);
    prove!(u64::at(b"\x01\x02\x03\x84", 18446744073709551615) == 0);
    prove!(layout::mask_bit(b"\x81", 0, 7) == 1);
}

fn boundaries(tally: &mut Tally) {
    let s = b"\x01\x02\x03\x84\x05\x06\x07\x88\x09";
    try_fields(tally, s, &BOUNDARIES_U32, |v: u32| v);
    try_fields(tally, s, &BOUNDARIES_U64, |v: u64| v);
    try_fields(tally, s, &BOUNDARIES_I32, |v: i32| v);
    try_fields(tally, s, &BOUNDARIES_I64, |v: i64| v);
    try_fields(tally, s, &BOUNDARIES_U32, |v: f32| float::bits_of(v));
    try_fields(tally, s, &BOUNDARIES_U64, |v: f64| float::f64_bits(v));
}

fn kinds(tally: &mut Tally) {
    try_fields(
        tally,
        b"\x00\x00\x00\x00\x00\x00\x00\x80\x00\x00\x00\x3f\x01\x00\x00\x00\xff\xff\x7f\xff\x00\x00\x80\x7f\x00\x00\x80\xff\x01\x00\x80\x7f\
          \x00\x00\xc0\x7f\xff\xff\xff\xff",
        &KINDS_F32,
        |v: f32| float::bits_of(v),
    );
    try_fields(
        tally,
        b"\x00\x00\x00\x00\x00\x00\x00\x00\x00\x00\x00\x00\x00\x00\x00\x80\x00\x00\x00\x00\x00\x00\xe0\x3f\x01\x00\x00\x00\x00\x00\x00\x00\
          \xff\xff\xff\xff\xff\xff\xef\xff\x00\x00\x00\x00\x00\x00\xf0\x7f\x00\x00\x00\x00\x00\x00\xf0\xff\x01\x00\x00\x00\x00\x00\xf0\x7f\
          \x00\x00\x00\x00\x00\x00\xf8\x7f\xff\xff\xff\xff\xff\xff\xff\xff",
        &KINDS_F64,
        |v: f64| float::f64_bits(v),
    );
}

fn signs(tally: &mut Tally) {
    try_fields(
        tally,
        b"\x00\x00\x00\x00\x01\x00\x00\x00\xff\xff\xff\x7f\x00\x00\x00\x80\x01\x00\x00\x80\xff\xff\xff\xff",
        &SIGNS_I32,
        |v: i32| v,
    );
    try_fields(
        tally,
        b"\x00\x00\x00\x00\x00\x00\x00\x00\x01\x00\x00\x00\x00\x00\x00\x00\xff\xff\xff\xff\xff\xff\xff\x7f\x00\x00\x00\x00\x00\x00\x00\x80\
          \x01\x00\x00\x00\x00\x00\x00\x80\xff\xff\xff\xff\xff\xff\xff\xff",
        &SIGNS_I64,
        |v: i64| v,
    );
}

fn mask_bits(tally: &mut Tally) {
    let s = b"\x81\x02\xff";
    for (n, at, i, bit) in BITS {
        tally.count(layout::mask_bit(first(s, n), at, i) == bit);
    }
}

fn main(rt: HostRuntime) -> io::Result<()> {
    proved();
    let mut tally = Tally::default();
    boundaries(&mut tally);
    kinds(&mut tally);
    signs(&mut tally);
    mask_bits(&mut tally);
    let out = &mut io::writer(&rt);
    report(out, tally.reads, b" reads, ")?;
    report(out, tally.differ, b" differ\n")
}
