// Little-endian fields of a byte string, and the mask bits of a node.
// `Field::at` counts a byte past the end as 0, for the loops over a node's slots; `read` refuses a field that passes the end.
#![tactic(auto)]

ghost use Rattle.std.specs.Prelude.{◌≡◌, ◌+◌, ◌<◌, ℕ, List, get_or, leb, eqb, ◌||◌, slice_index};
ghost use Rattle.refusals.specs.Numbers.{said_by};
ghost use Rattle.layout.specs.Bytes.{u16_at, u32_at, u64_at, i32_at, i64_at, f32_at, f64_at, mask_bit, mask_word};
ghost use Rattle.layout.specs.Reads.{read_field};

mod coordinate;

pub use coordinate::Coordinate;
use refusals::Refusal;

// Whether a field of `width` bytes at `at` lies inside n bytes. The sum at + width may pass 2^64, so it is not formed.
#[tactic(auto, using(crate::proofs::Laws::end_test))]
pub fn inside(n: usize, at: usize, width: usize) -> bool
    ensures { result ≡ leb (at + width) n }
{
    width <= n && at <= n - width
}

// The bytes from `at` on.
fn rest(b: &[u8], at: usize) -> &[u8]
    ensures { (i : ℕ) → slice_index result.now i ≡ get_or b.now (at + i) 0 }
{
    b.get(at..).unwrap_or(&[])
}

// The first N bytes, and zeros where there are fewer. Out of line: a field that lies inside is then a test and a load.
#[cold]
#[inline(never)]
fn padded<const N: usize>(bytes: &[u8]) -> [u8; N]
    ensures { (i : ℕ) → i < N → slice_index result i ≡ get_or bytes.now i 0 }
{
    let n = bytes.len().min(N);
    let mut padded = [0; N];
    padded[..n].copy_from_slice(&bytes[..n]);
    padded
}

// The N bytes from `at` on.
fn bytes_at<const N: usize>(b: &[u8], at: usize) -> [u8; N]
    ensures { (i : ℕ) → i < N → slice_index result i ≡ get_or b.now (at + i) 0 }
{
    if inside(b.len(), at, N)
        && let Some(bytes) = b[at..at + N].first_chunk()
    {
        return *bytes;
    }
    padded(rest(b, at))
}

// A field of a fixed width: what its bytes say.
pub trait Field: Copy {
    ghost WIDTH: { ℕ };

    ghost field: { List ℕ → ℕ → Self };

    const WIDTH: usize;

    // The field at a place, where bytes past the end count as 0.
    fn at(b: &[u8], at: usize) -> Self
        ensures { result ≡ field b.now at };
}

impl Field for u16 {
    ghost WIDTH = { 2 };

    ghost field = { u16_at };

    const WIDTH: usize = 2;

    #[tactic(auto, using(crate::proofs::Fields::copied_two))]
    fn at(b: &[u8], at: usize) -> u16 {
        u16::from_le_bytes(bytes_at(b, at))
    }
}

impl Field for u32 {
    ghost WIDTH = { 4 };

    ghost field = { u32_at };

    const WIDTH: usize = 4;

    #[tactic(auto, using(crate::proofs::Fields::copied_four))]
    fn at(b: &[u8], at: usize) -> u32 {
        u32::from_le_bytes(bytes_at(b, at))
    }
}

impl Field for u64 {
    ghost WIDTH = { 8 };

    ghost field = { u64_at };

    const WIDTH: usize = 8;

    #[tactic(auto, using(crate::proofs::Fields::copied_eight))]
    fn at(b: &[u8], at: usize) -> u64 {
        u64::from_le_bytes(bytes_at(b, at))
    }
}

impl Field for i32 {
    ghost WIDTH = { 4 };

    ghost field = { i32_at };

    const WIDTH: usize = 4;

    #[tactic(auto, using(crate::proofs::Fields::signed_four))]
    fn at(b: &[u8], at: usize) -> i32 {
        u32::at(b, at).cast_signed()
    }
}

impl Field for i64 {
    ghost WIDTH = { 8 };

    ghost field = { i64_at };

    const WIDTH: usize = 8;

    #[tactic(auto, using(crate::proofs::Fields::signed_eight))]
    fn at(b: &[u8], at: usize) -> i64 {
        u64::at(b, at).cast_signed()
    }
}

impl Field for f32 {
    ghost WIDTH = { 4 };

    ghost field = { f32_at };

    const WIDTH: usize = 4;

    fn at(b: &[u8], at: usize) -> f32 {
        float::float_of(u32::at(b, at))
    }
}

impl Field for f64 {
    ghost WIDTH = { 8 };

    ghost field = { f64_at };

    const WIDTH: usize = 8;

    fn at(b: &[u8], at: usize) -> f64 {
        float::f64_of(u64::at(b, at))
    }
}

// A field that must lie inside the bytes: 5 where it does not.
pub fn read<T: Field>(b: &[u8], at: usize) -> Result<T, Refusal>
    ensures { said_by result ≡ read_field T.field T.WIDTH b.now at }
{
    if inside(b.len(), at, T::WIDTH) {
        Ok(T::at(b, at))
    } else {
        Err(Refusal::PastEnd)
    }
}

// "NanoVDB0", the mark of older files and grids, or the newer mark of what is read.
pub fn mark_passes(mark: u64, newer: u64) -> bool
    ensures { result ≡ (eqb mark 0x304244566f6e614e || eqb mark newer) }
{
    mark == 0x304244566f6e614e || mark == newer
}

// Bit i of the mask that stands at `at`: 0 or 1.
pub fn mask_bit(b: &[u8], at: usize, i: usize) -> u32
    ensures { result ≡ mask_bit b.now at i }
{
    let byte = rest(b, at).get(i / 8).copied().unwrap_or(0);
    (byte as u32 >> ((i % 8) as u32)) % 2
}

// Word k of the mask that stands at `at`: its bit i is bit 64 k + i of the mask. The sum at + 8 k may pass 2^64, so it is formed inside the bytes alone.
pub fn mask_word(b: &[u8], at: usize, k: usize) -> u64
    ensures { result ≡ mask_word b.now at k }
{
    let rest = rest(b, at);
    if rest.len() / 8 < k {
        return 0;
    }
    u64::at(rest, 8 * k)
}
