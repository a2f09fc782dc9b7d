// Fills of lent slices: every element is set to zero.
#![tactic(auto)]

ghost use Rattle.std.specs.Prelude.{◌≡◌, pos, length, replicate};
ghost use Rattle.float.specs.Zero.{+0};

// What an element of a table has a zero of.
pub trait HasZero: Copy {
    ghost ZERO: { Self };

    const ZERO: Self;

    // A copy of it is the same zero.
    ghost copied: { Self.is_infallible ZERO × ((y : Self) → Self.is_clone ZERO y → y ≡ ZERO) };
}

impl HasZero for u8 {
    ghost ZERO = { 0 };

    const ZERO: u8 = 0;

    ghost copied = { (tt, λ y e. e) };
}

impl HasZero for i32 {
    ghost ZERO = { pos 0 };

    const ZERO: i32 = 0;

    ghost copied = { (tt, λ y e. e) };
}

impl HasZero for u32 {
    ghost ZERO = { 0 };

    const ZERO: u32 = 0;

    ghost copied = { (tt, λ y e. e) };
}

impl HasZero for u64 {
    ghost ZERO = { 0 };

    const ZERO: u64 = 0;

    ghost copied = { (tt, λ y e. e) };
}

impl HasZero for f32 {
    ghost ZERO = { +0 };

    const ZERO: f32 = 0.0;

    ghost copied = { (tt, λ y e. e) };
}

pub fn zero<T: HasZero>(table: &mut [T])
    ensures { table.new ≡ replicate (length table.old) T.ZERO }
{
    table.fill(T::ZERO);
}
