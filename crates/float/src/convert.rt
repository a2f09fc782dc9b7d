// From one format to the other.
ghost use Rattle.std.specs.Prelude.{◌≡◌, from_bits, to_bits};
ghost use Rattle.std.specs.Float.{binary32, binary64};
ghost use Rattle.float.specs.Fused.{narrow};

use crate::pattern::{bits_of, f64_bits, f64_of, float_of};

// The binary64 pattern of the same value: Rust's `as f64`.
pub fn widen_bits(b: u32) -> u64
    ensures { result ≡ to_bits binary64 (from_bits binary32 b) }
{
    f64_bits(widen(float_of(b)))
}

// The same value at binary64.
pub fn widen(x: f32) -> f64
    ensures { result ≡ x }
{
    std::num::f32_to_f64_with_nan(x)
}

// The binary32 pattern nearest to a binary64 pattern, a tie to the even one: Rust's `as f32`.
pub fn narrow_bits(b: u64) -> u32
    ensures { result ≡ to_bits binary32 (narrow (from_bits binary64 b)) }
{
    bits_of(narrow(f64_of(b)))
}

// x at binary32, rounded once.
#[tactic(auto, using(crate::proofs::Library::narrow_is))]
pub fn narrow(x: f64) -> f32
    ensures { result ≡ narrow x }
{
    std::num::nearest_f64_to_f32_with_nan(x)
}
