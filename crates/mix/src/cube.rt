// The mix of voxels, from where their lookups ended: voxels in one cube of 8 share the way down.
ghost use Rattle.std.specs.Prelude.{◌≡◌, true, get_or};
ghost use Rattle.std.specs.Float.{nan};
ghost use Rattle.std.specs.Int.Signed.{shr_z};
ghost use Rattle.layout.specs.Record.{as_coord};
ghost use Rattle.sparse_grid.specs.Answers.{at};
ghost use Rattle.sparse_grid.specs.Spots.{leaves_of};
ghost use Rattle.mix.specs.Mix.{lerp as lerp_s};
ghost use Rattle.mix.specs.Inner.{read_from};

use crate::point::{Side, lerp};
use layout::Coordinate;
use refusals::Refusal;
use sparse_grid::lookup::Spot;

// The number of the cube of 8 that a coordinate lies in.
fn cube_of(c: i32) -> i32
    ensures { result ≡ shr_z c 8 }
{
    c >> 3
}

// Whether both sides lie in one cube.
pub(crate) fn shares(a: Side) -> bool
    ensures { result ≡ true → shr_z a.lo 8 ≡ shr_z a.hi 8 }
{
    cube_of(a.lo) == cube_of(a.hi)
}

// What is read at a coordinate from where a lookup ended, and +0.0 where it is refused.
fn read(leaf_values: &[f32], spot: Result<Spot, Refusal>, c: Coordinate) -> f32
    ensures { result ≡ read_from (leaves_of leaf_values.now) spot (as_coord c) }
{
    spot.and_then(|spot| spot.read(leaf_values, c))
        .map_or(0.0, |reading| reading.value)
}

// The mix along z, at x and y, from where the lookups of its two voxels ended.
pub(crate) fn along_z(
    leaf_values: &[f32],
    low: Result<Spot, Refusal>,
    high: Result<Spot, Refusal>,
    x: i32,
    y: i32,
    k: Side,
) -> f32
    ensures { let g = leaves_of leaf_values.now in
        result ≡ lerp_s (read_from g low (at x y k.lo)) (read_from g high (at x y k.hi)) k.t }
{
    let a = read(leaf_values, low, Coordinate { x, y, z: k.lo });
    let b = read(leaf_values, high, Coordinate { x, y, z: k.hi });
    lerp(a, b, k.t)
}

// The mix along y and x of four mixes along z: those at the lower x come first, of each two that at the lower y.
pub(crate) fn across(along: [f32; 4], i: Side, j: Side) -> f32
    ensures { result ≡ lerp_s (lerp_s (get_or along 0 nan) (get_or along 1 nan) j.t) (lerp_s (get_or along 2 nan) (get_or along 3 nan) j.t) i.t }
{
    let a = lerp(along[0], along[1], j.t);
    let b = lerp(along[2], along[3], j.t);
    lerp(a, b, i.t)
}
