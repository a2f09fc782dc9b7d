// `mul_add`: the product and the sum, rounded once.
ghost use Rattle.std.specs.Prelude.{◌≡◌, from_bits, to_bits};
ghost use Rattle.std.specs.Float.{binary32};
ghost use Rattle.float.specs.Fused.{fma};

use crate::pattern::{bits_of, float_of};

// a * b + c of three patterns: Rust's `mul_add`.
pub fn mul_add_bits(a: u32, b: u32, c: u32) -> u32
    ensures { result ≡ to_bits binary32 (fma binary32 (from_bits binary32 a) (from_bits binary32 b) (from_bits binary32 c)) }
{
    bits_of(mul_add(float_of(a), float_of(b), float_of(c)))
}

// The same of values.
#[tactic(auto, using(crate::proofs::Library::fma_is))]
pub fn mul_add(a: f32, b: f32, c: f32) -> f32
    ensures { result ≡ fma binary32 a b c }
{
    a.mul_add(b, c)
}
