// The densities of a list of points, over a grid and a medium that passed their checks.
ghost use Rattle.std.specs.Prelude.{◌≡◌, ◌*◌, eqb, length};
ghost use Rattle.refusals.specs.Numbers.{fault_of};
ghost use Rattle.refusals.specs.Results.{ok};
ghost use Rattle.refusals.specs.Faults.{◌then◌, unless, passing};
ghost use Rattle.sparse_grid.specs.Lookup.{read_in};
ghost use Rattle.sparse_grid.specs.Record.{as_grid};
ghost use Rattle.medium.specs.Medium.{map_fault};
ghost use Rattle.medium.specs.Record.{as_medium};
ghost use Rattle.mix.specs.Density.{density_by, mix_fault, densities_of, densities_into};

use crate::check;
use crate::point::density;
use medium::Medium;
use refusals::Refusal;
use sparse_grid::Grid;

// 18 for a list that is not three numbers to a place, then the grid and the medium. Three times the places may pass 2^64, so the
// numbers are divided.
fn check_list(grid: &Grid, m: &Medium, numbers: usize, places: usize) -> Result<(), Refusal>
    ensures { fault_of result ≡ (unless (eqb numbers (3 * places)) 18 then mix_fault (as_grid grid.now) (as_medium m.now)) }
{
    if numbers % 3 != 0 || numbers / 3 != places {
        return Err(Refusal::Tables);
    }
    check(grid, m)
}

// Writes the density at each point, or answers the refusal of the first that has one.
fn densities(grid: &Grid, m: &Medium, points: &[f32], values: &mut [f32]) -> Result<(), Refusal>
    requires map { map_fault (as_medium m.now) ≡ 0 }
    requires places { length points.now ≡ 3 * length values.old }
    ensures { passing (fault_of result) (ok values.new)
        ≡ densities_of (density_by (read_in (as_grid grid.now)) (as_medium m.now)) points.now (length values.old) }
{
    for i in 0..values.len() {
        let at = 3 * i;
        values[i] = density(grid, m, [points[at], points[at + 1], points[at + 2]])?;
    }
    Ok(())
}

// The tests of the list, the grid and the medium, and then the densities.
#[tactic(auto, using(crate::proofs::Laws::list_passed, crate::proofs::Laws::list_stops), unfolding(crate::specs::Density::densities_into))]
pub(crate) fn fill(
    grid: &Grid,
    m: &Medium,
    points: &[f32],
    values: &mut [f32],
) -> Result<(), Refusal>
    ensures { passing (fault_of result) (ok values.new)
        ≡ densities_into (as_grid grid.now) (as_medium m.now) points.now (length values.old) }
{
    check_list(grid, m, points.len(), values.len())?;
    densities(grid, m, points, values)
}
