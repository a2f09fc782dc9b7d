// The box maximum and the table of majorants (nanovdb.rs).
#![tactic(auto)]

ghost use Rattle.std.specs.Prelude.{◌≡◌, length, replicate};
ghost use Rattle.refusals.specs.Numbers.{said_by, fault_of};
ghost use Rattle.refusals.specs.Results.{number_of, value_or};
ghost use Rattle.float.specs.Zero.{+0};
ghost use Rattle.sparse_grid.specs.Record.{as_grid};
ghost use Rattle.medium.specs.Record.{as_medium};
ghost use Rattle.index.specs.Outcomes.{said_as};
ghost use Rattle.boxes.specs.Boxes.{as_box};
ghost use Rattle.walk.specs.Classes.{public_counts};
ghost use Rattle.majorant.specs.Build.{public_maximum, build_into};
ghost use Rattle.majorant.specs.Counted.{public_counted, as_read};
ghost use Rattle.majorant.specs.Maxima.{maxima_into, greatest_into};

mod build;
mod class_walk;
mod classes;
mod gather;
mod maxima;
mod node_max;
mod nodes;
mod part;
mod range_max;
mod roots;

use boxes::CoordBox;
use classes::{box_classes, check_classes};
use lent::zero;
use medium::Medium;
use range_max::{range_max, range_max_counted};
use refusals::Refusal;
use sparse_grid::Grid;

// The maximum of a box, and how many root entries, upper entries, lower entries and leaf values (in two words) were read for it.
#[derive(Clone, Copy)]
pub struct Counted {
    pub maximum: f32,
    pub roots: u64,
    pub upper: u64,
    pub lower: u64,
    pub high: u64,
    pub low: u64,
}

// The greatest of +0.0 and the voxels of a box. The grid is validated first.
#[tactic(auto, unfolding(crate::specs::Build::public_maximum))]
pub fn box_maximum(grid: &Grid, of: CoordBox) -> Result<f32, Refusal>
    ensures { said_by result ≡ public_maximum (as_grid grid.now) (as_box of) }
{
    grid.validate()?;
    Ok(range_max(grid, of))
}

// The box maximum, by the same walk, and what it read after `validate`.
#[tactic(auto, unfolding(crate::specs::Counted::public_counted))]
pub fn box_maximum_counted(grid: &Grid, of: CoordBox) -> Result<Counted, Refusal>
    ensures { said_as as_read result ≡ public_counted (as_grid grid.now) (as_box of) }
{
    Grid::validate(grid)?;
    Ok(range_max_counted(grid, of))
}

// A maximum for each box of a list, six numbers a box, minima first, and the greatest of them. The grid is validated once. After a refusal the
// maxima are zero.
pub fn box_maxima(grid: &Grid, boxes: &[i32], maxima: &mut [f32]) -> Result<f32, Refusal>
    ensures greatest { said_by result ≡ greatest_into (as_grid grid.now) boxes.now (length maxima.old) }
    ensures table { let n = length maxima.old in
        maxima.new ≡ value_or (replicate n +0) (maxima_into (as_grid grid.now) boxes.now n) }
{
    let answer = maxima::fill(grid, boxes, maxima);
    if answer.is_err() {
        zero(maxima);
    }
    answer
}

// The table of majorants, one figure for each cell of the record's X, Y and Z: cell x + X (y + Y z). After a refusal the table is zero.
pub fn build_majorant(grid: &Grid, m: &Medium, majorants: &mut [f32]) -> Result<(), Refusal>
    ensures number { fault_of result ≡ number_of (build_into (as_grid grid.now) (as_medium m.now) (length majorants.old)) }
    ensures table { let n = length majorants.old in
        majorants.new ≡ value_or (replicate n +0) (build_into (as_grid grid.now) (as_medium m.now) n) }
{
    let answer = build::fill(grid, m, majorants);
    if answer.is_err() {
        zero(majorants);
    }
    answer
}

// How many coordinates of a box hold a density below the first limit, between each pair (lower end included), and at or above the last; zero past
// the last class. The grid is validated first.
pub fn count_classes(grid: &Grid, limits: &[f32], of: CoordBox) -> Result<[u64; 17], Refusal>
    ensures { said_by result ≡ public_counts (as_grid grid.now) limits.now (as_box of) }
{
    check_classes(grid, limits, of)?;
    Ok(box_classes(grid, limits, of))
}
