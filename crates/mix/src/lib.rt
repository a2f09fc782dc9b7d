// The density between voxels: the eight voxels around a point, mixed along z, then y, then x. Nothing of it stands in the Rust source.
#![tactic(auto)]

ghost use Rattle.std.specs.Prelude.{◌≡◌, length, replicate};
ghost use Rattle.refusals.specs.Numbers.{fault_of, said_by};
ghost use Rattle.refusals.specs.Results.{number_of, value_or};
ghost use Rattle.float.specs.Zero.{+0};
ghost use Rattle.sparse_grid.specs.Record.{as_grid};
ghost use Rattle.medium.specs.Record.{as_medium, point_of};
ghost use Rattle.mix.specs.Density.{density_at, mix_fault, densities_into};

mod cube;
mod list;
mod point;

use lent::zero;
use list::fill;
use medium::Medium;
use point::density;
use refusals::Refusal;
use sparse_grid::Grid;

// validate, 15, 4, 13.
pub(crate) fn check(grid: &Grid, m: &Medium) -> Result<(), Refusal>
    ensures { fault_of result ≡ mix_fault (as_grid grid.now) (as_medium m.now) }
{
    grid.validate()?;
    grid.check_density()?;
    m.check_bounds()?;
    m.check_map()
}

// The density at a world point: validate, 15, 4, 13, then 24 for a point outside the world box and 16 for a voxel outside i32.
#[tactic(auto, using(crate::proofs::Laws::map_passed), unfolding(crate::specs::Density::density_at))]
pub fn density_at(grid: &Grid, m: &Medium, point: [f32; 3]) -> Result<f32, Refusal>
    ensures { said_by result ≡ density_at (as_grid grid.now) (as_medium m.now) (point_of point) }
{
    check(grid, m)?;
    density(grid, m, point)
}

// A density for each point of a list, three numbers a point. The grid and the medium are tested once. After a refusal, that of the first
// point that has one, the densities are zero. Numbers in a row: 18 is of their count, which a list of triples would leave out.
#[tactic(auto, using(crate::proofs::Laws::number_said, crate::proofs::Laws::zeros_said, crate::proofs::Laws::values_said))]
pub fn densities_into(
    grid: &Grid,
    m: &Medium,
    points: &[f32],
    values: &mut [f32],
) -> Result<(), Refusal>
    ensures number { fault_of result ≡ number_of (densities_into (as_grid grid.now) (as_medium m.now) points.now (length values.old)) }
    ensures table { let n = length values.old in
        values.new ≡ value_or (replicate n +0) (densities_into (as_grid grid.now) (as_medium m.now) points.now n) }
{
    let answer = fill(grid, m, points, values);
    if answer.is_err() {
        zero(values);
    }
    answer
}
