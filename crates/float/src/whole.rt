// Whole parts: trunc, floor, the checked coordinate, and the cast to an i32.
ghost use Rattle.std.specs.Prelude.{◌≡◌, from_bits, to_bits};
ghost use Rattle.std.specs.Float.{binary64};
ghost use Rattle.refusals.specs.Numbers.{said_by};
ghost use Rattle.float.specs.Fused.{trunc, floor};
ghost use Rattle.float.specs.Coordinate.{coordinate};
ghost use Rattle.float.specs.Saturated as Saturated;

use crate::pattern::{f64_bits, f64_of};
use refusals::Refusal;

// A binary64 pattern without its fraction: Rust's `trunc`.
pub fn trunc_bits(b: u64) -> u64
    ensures { result ≡ to_bits binary64 (trunc binary64 (from_bits binary64 b)) }
{
    f64_bits(trunc(f64_of(b)))
}

// x without its fraction.
#[tactic(auto, using(crate::proofs::Library::trunc_is))]
pub fn trunc(x: f64) -> f64
    ensures { result ≡ trunc binary64 x }
{
    x.trunc()
}

// The largest whole number that is not above x: Rust's `floor`.
#[tactic(auto, using(crate::proofs::Library::floor_is))]
pub fn floor(x: f64) -> f64
    ensures { result ≡ floor binary64 x }
{
    x.floor()
}

// The same of a binary64 pattern.
pub fn floor_bits(b: u64) -> u64
    ensures { result ≡ to_bits binary64 (floor binary64 (from_bits binary64 b)) }
{
    f64_bits(floor(f64_of(b)))
}

// The whole part of v as an i32, or 16 where v is not finite or lies outside i32.
pub fn checked_coordinate(v: f64) -> Result<i32, Refusal>
    ensures { said_by result ≡ coordinate v }
{
    if -2147483648.0 <= v && v <= 2147483647.0 {
        // In range by now. The cast that saturates is slower, by 1 ns of 4: it tests for the ends again.
        Ok(std::num::truncating_f64_to_i64(v) as i32)
    } else {
        Err(Refusal::Coordinate)
    }
}

// The same of a binary64 pattern.
pub fn checked_coordinate_bits(b: u64) -> Result<i32, Refusal>
    ensures { said_by result ≡ coordinate (from_bits binary64 b) }
{
    checked_coordinate(f64_of(b))
}

// v as an i32: without its fraction, the nearer end where that is outside i32, and 0 for a NaN. Rust's `as i32`.
#[tactic(auto, using(crate::proofs::SaturatedLaws::saturated_is))]
pub fn saturated(v: f32) -> i32
    ensures { result ≡ Saturated.saturated v }
{
    std::num::saturating_f32_to_i32(v)
}
