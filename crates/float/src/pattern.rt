// Bit patterns: the values that they stand for, and their fields.
ghost use Rattle.std.specs.Prelude.{◌≡◌, from_bits, to_bits};
ghost use Rattle.std.specs.Float.{binary32, binary64};
ghost use Rattle.std.specs.Float.Ieee.Scale.{finite};
ghost use Rattle.float.specs.Fields.{digits_of, place_of};

// The sign's bit, and the bit of the leading digit.
const SIGN: u32 = 0x8000_0000;

const LEADING: u32 = 0x0080_0000;

// x's pattern. These four are names for std's functions, a line each, which a trait with two impls would not shorten.
pub fn bits_of(x: f32) -> u32
    ensures { result ≡ to_bits binary32 x }
{
    std::num::f32_to_bits_with_nan(x)
}

// The same of an f64.
pub fn f64_bits(x: f64) -> u64
    ensures { result ≡ to_bits binary64 x }
{
    std::num::f64_to_bits_with_nan(x)
}

// The value of a pattern.
pub fn float_of(b: u32) -> f32
    ensures { result ≡ from_bits binary32 b }
{
    std::num::f32_from_bits_with_nan(b)
}

// The same of an f64.
pub fn f64_of(b: u64) -> f64
    ensures { result ≡ from_bits binary64 b }
{
    std::num::f64_from_bits_with_nan(b)
}

// The digits of a binary32 pattern, with the leading one unless the exponent's field is 0.
pub fn digits(b: u32) -> u64
    ensures { result ≡ digits_of binary32 b }
{
    let below = (b % LEADING) as u64;
    if b % SIGN / LEADING == 0 {
        below
    } else {
        LEADING as u64 + below
    }
}

// The power of two that the digits count, from the smallest value up.
pub fn place(b: u32) -> u64
    ensures { result ≡ place_of binary32 b }
{
    ((b % SIGN / LEADING) as u64).saturating_sub(1)
}

// Whether x is neither an infinity nor a NaN.
#[tactic(auto, using(crate::proofs::Library::finite_is))]
pub fn is_finite(x: f32) -> bool
    ensures { result ≡ finite x }
{
    x.is_finite()
}
