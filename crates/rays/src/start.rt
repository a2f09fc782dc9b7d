// The start of a ray on one axis.
ghost use Rattle.std.specs.Prelude.{◌≡◌, ◌<◌, ◌≤◌, pos};
ghost use Rattle.std.specs.Float.{binary32};
ghost use Rattle.std.specs.Float.Ieee.{div};
ghost use Rattle.rays.specs.Open.{plain, cell_at, track_from, track_on};
ghost use Rattle.rays.specs.Open as Open;
ghost use Rattle.rays.specs.Answers.{as_track};

use crate::state::Track;
use float::saturated;
use std::num::nearest_u32_to_f32;

// d / width, where -0.0 counts as +0.0.
fn along(d: f32, width: f32) -> f32
    ensures { result ≡ plain (div binary32 d width) }
{
    let a = d / width;
    if a == 0.0 { 0.0 } else { a }
}

// d without its sign.
#[tactic(auto, using(crate::proofs::Laws::abs_is))]
fn magnitude(d: f32) -> f32
    ensures { result ≡ Open.magnitude d }
{
    d.abs()
}

// The cell of n in which the position p lies.
// 1 ≤ n ≤ 128 is what the check of Cells leaves. Cells comes from C unchecked, so it has no such invariant.
#[tactic(auto, unfolding(crate::specs::Open::cell_at))]
fn cell_at(p: f32, n: u32) -> u32
    requires { (1 ≤ n) × (n ≤ 128) }
    ensures { (pos result ≡ cell_at p n) × (result < n) }
{
    let cell = saturated(p * nearest_u32_to_f32(n)).max(0) as u32;
    cell.min(n - 1)
}

// From the position p in the direction d at t.
fn track_from(p: f32, d: f32, t: f32, n: u32) -> Track
    requires { (1 ≤ n) × (n ≤ 128) }
    ensures { as_track result ≡ track_from p d t n }
{
    let k = cell_at(p, n);
    let count = nearest_u32_to_f32(n);
    let delta = 1.0 / (magnitude(d) * count);
    if d >= 0.0 {
        let face = nearest_u32_to_f32(k + 1) / count;
        Track {
            next: t + (face - p) / d,
            delta,
            step: 1,
            cell: k as i32,
            cells: n,
        }
    } else {
        let face = nearest_u32_to_f32(k) / count;
        Track {
            next: t + (face - p) / d,
            delta,
            step: -1,
            cell: k as i32,
            cells: n,
        }
    }
}

// From the world.
#[tactic(auto, unfolding(crate::specs::Open::track_on))]
pub(crate) fn track_on(low: f32, high: f32, o: f32, d: f32, t: f32, n: u32) -> Track
    requires { (1 ≤ n) × (n ≤ 128) }
    ensures { as_track result ≡ track_on low high o d t n }
{
    let width = high - low;
    let a = along(d, width);
    let p = (o - low) / width + t * a;
    track_from(p, a, t, n)
}
