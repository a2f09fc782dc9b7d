// The density at one point, over a grid and a medium that passed their checks.
ghost use Rattle.std.specs.Prelude.{◌≡◌, ◌&&◌};
ghost use Rattle.std.specs.Float.{binary32};
ghost use Rattle.std.specs.Float.Ieee.{of_bits, le};
ghost use Rattle.refusals.specs.Numbers.{fault_of, said_by};
ghost use Rattle.refusals.specs.Faults.{unless};
ghost use Rattle.sparse_grid.specs.Lookup.{read_in};
ghost use Rattle.sparse_grid.specs.Record.{as_grid};
ghost use Rattle.medium.specs.Medium.{each, map_fault};
ghost use Rattle.medium.specs.Record.{as_medium, point_of};
ghost use Rattle.index.specs.Outcomes.{said_as};
ghost use Rattle.mix.specs.Mix.{lerp as lerp_s, part as part_s};
ghost use Rattle.mix.specs.Density.{outside_fault, density_by};
ghost use Rattle.mix.specs.Inner.{as_sided, sided_at, on_z, on_x};

use crate::cube::{across, along_z, shares};
use float::{float_of, narrow, widen};
use index::{Ends, index_position};
use layout::Coordinate;
use medium::Medium;
use refusals::Refusal;
use sparse_grid::Grid;

// The voxels on either side of a position on one axis, and the part of the way between them.
#[derive(Clone, Copy)]
pub struct Side {
    pub lo: i32,
    pub hi: i32,
    pub t: f32,
}

// (1 - t) * a + t * b.
#[tactic(auto, using(crate::proofs::Laws::ones), unfolding(crate::specs::Mix::lerp))]
pub(crate) fn lerp(a: f32, b: f32, t: f32) -> f32
    ensures { result ≡ lerp_s a b t }
{
    (1.0 - t) * a + t * b
}

// A position less its floor.
fn part(p: f32) -> f32
    ensures { result ≡ part_s p }
{
    p - narrow(float::floor(widen(p)))
}

impl Side {
    // The sides of the position whose bits these are.
    #[tactic(auto, unfolding(crate::specs::Inner::sided_at))]
    fn of(bits: u32) -> Result<Side, Refusal>
        ensures { said_as as_sided result ≡ sided_at (of_bits binary32 bits) }
    {
        let p = float_of(bits);
        let Ends { lo, hi } = Ends::around(p)?;
        Ok(Side { lo, hi, t: part(p) })
    }
}

// 24 unless v lies from low to high.
fn check_inside_on(low: f32, high: f32, v: f32) -> Result<(), Refusal>
    ensures { fault_of result ≡ unless (le low v && le v high) 24 }
{
    if low <= v && v <= high {
        Ok(())
    } else {
        Err(Refusal::Outside)
    }
}

// 24 where the point lies outside the world box.
fn check_inside(m: &Medium, point: [f32; 3]) -> Result<(), Refusal>
    ensures { fault_of result ≡ each (outside_fault (as_medium m.now) (point_of point)) }
{
    check_inside_on(m.low[0], m.high[0], point[0])?;
    check_inside_on(m.low[1], m.high[1], point[1])?;
    check_inside_on(m.low[2], m.high[2], point[2])
}

// The mix along z, at x and y. Two voxels in one cube of 8 share the way down the tables.
fn column(grid: &Grid, x: i32, y: i32, k: Side) -> f32
    ensures { result ≡ on_z (read_in (as_grid grid.now)) x y k }
{
    let low = grid.spot(Coordinate { x, y, z: k.lo });
    if shares(k) {
        return along_z(grid.leaf_values, low, low, x, y, k);
    }
    let high = grid.spot(Coordinate { x, y, z: k.hi });
    along_z(grid.leaf_values, low, high, x, y, k)
}

// The mix between three pairs of sides. Voxels in one cube of 8, as most are, share the way down the tables.
fn mixed_at(grid: &Grid, i: Side, j: Side, k: Side) -> f32
    ensures { result ≡ on_x (read_in (as_grid grid.now)) i j k }
{
    if shares(i) && shares(j) && shares(k) {
        let spot = grid.spot(Coordinate {
            x: i.lo,
            y: j.lo,
            z: k.lo,
        });
        let leaves = grid.leaf_values;
        let along = [
            along_z(leaves, spot, spot, i.lo, j.lo, k),
            along_z(leaves, spot, spot, i.lo, j.hi, k),
            along_z(leaves, spot, spot, i.hi, j.lo, k),
            along_z(leaves, spot, spot, i.hi, j.hi, k),
        ];
        return across(along, i, j);
    }
    let along = [
        column(grid, i.lo, j.lo, k),
        column(grid, i.lo, j.hi, k),
        column(grid, i.hi, j.lo, k),
        column(grid, i.hi, j.hi, k),
    ];
    across(along, i, j)
}

// 24, 16, or the mix of the eight voxels around the point.
#[tactic(auto, unfolding(crate::specs::Density::density_by))]
pub(crate) fn density(grid: &Grid, m: &Medium, point: [f32; 3]) -> Result<f32, Refusal>
    requires { map_fault (as_medium m.now) ≡ 0 }
    ensures { said_by result ≡ density_by (read_in (as_grid grid.now)) (as_medium m.now) (point_of point) }
{
    check_inside(m, point)?;
    let at = index_position(*m, point)?;
    let i = Side::of(at[0])?;
    let j = Side::of(at[1])?;
    let k = Side::of(at[2])?;
    Ok(mixed_at(grid, i, j, k))
}
