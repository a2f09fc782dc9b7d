// What the bytes say before the tree is read: length, header, world box; and the medium record.
ghost use Rattle.std.specs.Prelude.{◌≡◌, ◌||◌, ℕ, ◌+◌, ◌^◌, ◌<◌, eqb, [], ◌∷◌};
ghost use Rattle.refusals.specs.Numbers.{fault_of};
ghost use Rattle.float.specs.Fused.{narrow as narrow_s};
ghost use Rattle.layout.specs.Bytes.{i32_at, f32_at, f64_at};
ghost use Rattle.medium.specs.Record.{point_of, coord_of, nine_of, as_medium};
ghost use Rattle.decode.specs.Inner.World.{SameWorld};
ghost use Rattle.nanovdb.specs.Decode.{header_passes, bound_at, medium_at, bytes_fault};

use layout::Field;
use medium::Medium;
use refusals::Refusal;

// "NanoVDB1", the newer mark of a grid. A segment of a file has another.
const NEWER: u64 = 0x314244566f6e614e;

// Unknown or fog volume.
fn class_passes(class: u32) -> bool
    ensures { result ≡ (eqb class 0 || eqb class 2) }
{
    class == 0 || class == 2
}

#[tactic(auto, unfolding(nanovdb::specs::Decode::header_passes))]
fn header_passes(bytes: &[u8]) -> bool
    ensures { result ≡ header_passes bytes.now }
{
    let count = u32::at(bytes, 28);
    layout::mark_passes(u64::at(bytes, 0), NEWER)
        && u32::at(bytes, 16) / 2097152 == 32
        && u64::at(bytes, 32) == bytes.len() as u64
        && u32::at(bytes, 636) == 1
        && class_passes(u32::at(bytes, 632))
        && 0 < count
        && u32::at(bytes, 24) < count
}

// An f64 of the world box, rounded to f32.
fn bound_at(bytes: &[u8], at: usize) -> f32
    ensures { result ≡ bound_at bytes.now at }
{
    float::narrow(f64::at(bytes, at))
}

// Three of them in a row. This and the next two differ in the type and in how far apart the three stand; a line for each is no longer than a trait.
fn bounds_at(bytes: &[u8], at: usize) -> [f32; 3]
    requires { at < 2 ^ 63 }
    ensures { let b = bytes.now in
        point_of result ≡ record { x = bound_at b at; y = bound_at b (at + 8); z = bound_at b (at + 16) } }
{
    [
        bound_at(bytes, at),
        bound_at(bytes, at + 8),
        bound_at(bytes, at + 16),
    ]
}

// Three i32 in a row.
fn corner_at(bytes: &[u8], at: usize) -> [i32; 3]
    requires { at < 2 ^ 63 }
    ensures { let b = bytes.now in
        coord_of result ≡ record { x = i32_at b at; y = i32_at b (at + 4); z = i32_at b (at + 8) } }
{
    [
        i32::at(bytes, at),
        i32::at(bytes, at + 4),
        i32::at(bytes, at + 8),
    ]
}

// Three f32 in a row.
fn row_at(bytes: &[u8], at: usize) -> [f32; 3]
    requires { at < 2 ^ 63 }
    ensures { let b = bytes.now in
        point_of result ≡ record { x = f32_at b at; y = f32_at b (at + 4); z = f32_at b (at + 8) } }
{
    [
        f32::at(bytes, at),
        f32::at(bytes, at + 4),
        f32::at(bytes, at + 8),
    ]
}

// The inverse map, row after row.
fn map_of(bytes: &[u8]) -> [f32; 9]
    ensures { let b = bytes.now in nine_of result ≡ f32_at b 332 ∷ f32_at b 336 ∷ f32_at b 340 ∷ f32_at b 344 ∷ f32_at b 348
        ∷ f32_at b 352 ∷ f32_at b 356 ∷ f32_at b 360 ∷ f32_at b 364 ∷ [] }
{
    let [a, b, c] = row_at(bytes, 332);
    let [d, e, f] = row_at(bytes, 344);
    let [g, h, i] = row_at(bytes, 356);
    [a, b, c, d, e, f, g, h, i]
}

// The medium of a grid whose root stands at `root`.
#[tactic(auto, unfolding(nanovdb::specs::Decode::medium_at))]
pub(crate) fn medium_at(bytes: &[u8], root: usize) -> Medium
    requires { root < 4294967296 }
    ensures { as_medium result ≡ medium_at bytes.now root }
{
    let low = bounds_at(bytes, 560);
    let high = bounds_at(bytes, 584);
    let index_low = corner_at(bytes, root);
    let index_high = corner_at(bytes, root + 12);
    let map = map_of(bytes);
    let translation = row_at(bytes, 368);
    medium::make_medium(
        low,
        high,
        index_low,
        index_high,
        map,
        translation,
        [64u32; 3],
    )
}

// The world box alone, with zeros in place of the rest: 4 is tested before the tree is read and looks at no more, and reading the rest takes time.
#[tactic(auto, unfolding(nanovdb::specs::Decode::medium_at))]
fn world_of(bytes: &[u8]) -> Medium
    ensures { (root : ℕ) → SameWorld (as_medium result) (medium_at bytes.now root) }
{
    let low = bounds_at(bytes, 560);
    let high = bounds_at(bytes, 584);
    let corner = [0i32; 3];
    medium::make_medium(
        low,
        high,
        corner,
        corner,
        [0.0f32; 9],
        [0.0f32; 3],
        [64u32; 3],
    )
}

// 1, 2, 3, 4.
pub(crate) fn check_bytes(bytes: &[u8]) -> Result<(), Refusal>
    ensures { fault_of result ≡ bytes_fault bytes.now }
{
    let n = bytes.len();
    if n > 4294967295 {
        return Err(Refusal::TooLong);
    }
    if n < 672 {
        return Err(Refusal::TooShort);
    }
    if !header_passes(bytes) {
        return Err(Refusal::Header);
    }
    world_of(bytes).check_bounds()
}
