// Floats as the loader takes them: std's operations under the definitions of specs/, of values and of bit patterns, and
// the checked coordinate. A pattern is an IEEE 754 binary32 in a u32 or a binary64 in a u64. A NaN that is worked out is
// 7fc00000, or 7ff8000000000000 in binary64.
#![tactic(auto)]

mod convert;
mod fused;
mod pattern;
mod whole;

pub use convert::{narrow, narrow_bits, widen, widen_bits};
pub use fused::{mul_add, mul_add_bits};
pub use pattern::{bits_of, digits, f64_bits, f64_of, float_of, is_finite, place};
pub use whole::{
    checked_coordinate, checked_coordinate_bits, floor, floor_bits, saturated, trunc, trunc_bits,
};
