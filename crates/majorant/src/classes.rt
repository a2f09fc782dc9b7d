// The coordinates of a box by class of density, over the lent tables of a grid that passed `validate`, and what is refused before.
ghost use Rattle.std.specs.Prelude.{◌≡◌, ℕ, ◌<◌, ◌≤◌, length, slice_index};
ghost use Rattle.refusals.specs.Faults.{◌then◌};
ghost use Rattle.refusals.specs.Numbers.{fault_of};
ghost use Rattle.sparse_grid.specs.Validate.{validate as validate_s};
ghost use Rattle.sparse_grid.specs.Lookup.{read_in};
ghost use Rattle.sparse_grid.specs.Record.{as_grid};
ghost use Rattle.boxes.specs.Boxes.{as_box};
ghost use Rattle.walk.specs.Classes.{class_count, limit_passes, limits_fault, sides_fault};
ghost use Rattle.majorant.specs.Rooting.{side_limit};

use crate::class_walk::Classes;
use crate::part::Part;
use crate::roots::walk_roots;
use boxes::{CoordBox, Span};
use refusals::Refusal;
use sparse_grid::Grid;

// The most limits.
const MOST: usize = 16;

pub(crate) fn box_classes(grid: &Grid, limits: &[f32], of: CoordBox) -> [u64; 17]
    requires { let g = as_grid grid.now in
        (validate_s g ≡ 0) × (sides_fault (as_box of) ≡ 0) × (length limits.now ≤ 16) }
    ensures long { length result ≡ 17 }
    ensures counts { let g = as_grid grid.now in
        (k : ℕ) → k < 17 → slice_index result k ≡ class_count (read_in g) limits.now (as_box of) k }
{
    let mut classes = Classes {
        limits,
        counts: [0; 17],
    };
    let part = Part::of(of);
    if !part.is_empty() {
        walk_roots(grid, part, &mut classes);
    }
    classes.counts
}

// ---- what is refused

fn limit_passes(limits: &[f32], i: usize) -> bool
    requires { i < length limits.now }
    ensures { result ≡ limit_passes limits.now i }
{
    float::is_finite(limits[i]) && (i == 0 || limits[i - 1] < limits[i])
}

// 25 unless there are 1 to 16 limits, all finite, each below the next.
fn check_limits(limits: &[f32]) -> Result<(), Refusal>
    ensures { fault_of result ≡ limits_fault limits.now }
{
    let n = limits.len();
    if n < 1 || MOST < n {
        return Err(Refusal::Classes);
    }
    for i in 0..n {
        if !limit_passes(limits, i) {
            return Err(Refusal::Classes);
        }
    }
    Ok(())
}

// 25 for a side of more than 2^20 coordinates; where low is above high there are none.
fn check_side(side: Span) -> Result<(), Refusal>
    ensures { fault_of result ≡ side_limit side }
{
    if side.hi.saturating_sub(side.lo) <= 1048576 {
        Ok(())
    } else {
        Err(Refusal::Classes)
    }
}

fn check_sides(part: Part) -> Result<(), Refusal>
    ensures { fault_of result ≡ (side_limit part.x then side_limit part.y then side_limit part.z) }
{
    check_side(part.x)?;
    check_side(part.y)?;
    check_side(part.z)
}

// `validate`, then 25.
pub(crate) fn check_classes(grid: &Grid, limits: &[f32], of: CoordBox) -> Result<(), Refusal>
    ensures { let g = as_grid grid.now in
        fault_of result ≡ (validate_s g then limits_fault limits.now then sides_fault (as_box of)) }
{
    grid.validate()?;
    check_limits(limits)?;
    check_sides(Part::of(of))
}
