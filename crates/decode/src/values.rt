// Runs of values. The whole node lies inside the bytes, so no value is read with a test of the end, and the compiler makes the loops wide.
ghost use Rattle.std.specs.Prelude.{◌≡◌, ℕ, ◌+◌, ◌*◌, ◌<◌, ◌≤◌, length};
ghost use Rattle.layout.specs.Bytes.{f32_at};
ghost use Rattle.decode.specs.Inner.Stored.{leaf_value, Stored, zero_behind};

#[tactic(auto, unfolding(layout::specs::Bytes::le))]
fn value_at(bytes: &[u8], at: usize) -> f32
    requires { at + 4 ≤ length bytes.now }
    ensures { result ≡ f32_at bytes.now at }
{
    let four = [bytes[at], bytes[at + 1], bytes[at + 2], bytes[at + 3]];
    float::float_of(u32::from_le_bytes(four))
}

// The values of the leaf at source, behind those of the leaves before it. Apart from `run`: a value stands every 4 bytes here, and every 8 there.
pub(crate) fn leaf(bytes: &[u8], source: usize, leaves: &mut [f32], base: usize)
    requires { (source + 2144 ≤ length bytes.now) × (base + 512 ≤ length leaves.old) }
    ensures { Stored (leaf_value bytes.now source) base 0 leaves.old 512 leaves.new }
{
    for i in 0..512usize {
        leaves[base + i] = value_at(bytes, source + 96 + 4 * i);
    }
}

// The values of the slots `from` to `to` of a table of slots.
pub(crate) fn run(
    bytes: &[u8],
    table: usize,
    values: &mut [f32],
    base: usize,
    from: usize,
    to: usize,
)
    requires { (from ≤ to) × (table + 8 * to ≤ length bytes.now) × (base + to ≤ length values.old) }
    ensures { Stored (λ (i : ℕ). f32_at bytes.now (table + 8 * i)) base from values.old to values.new }
{
    for i in from..to {
        values[base + i] = value_at(bytes, table + 8 * i);
    }
}

// Zeros behind the values of so many leaves.
pub(crate) fn zero_behind(values: &mut [f32], leaves: usize)
    ensures { values.new ≡ zero_behind leaves values.old }
{
    if leaves <= values.len() / 512 {
        let used = 512 * leaves;
        lent::zero(&mut values[used..]);
    }
}
