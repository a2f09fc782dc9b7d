// The table of majorants. The ends of a cell's boxes are worked out once for each axis.
ghost use Rattle.std.specs.Prelude.{◌≡◌, ℕ, ◌+◌, ◌*◌, ◌<◌, ◌≤◌, length, take};
ghost use Rattle.refusals.specs.Numbers.{said_by, fault_of};
ghost use Rattle.refusals.specs.Results.{ok};
ghost use Rattle.refusals.specs.Faults.{◌then◌, passing};
ghost use Rattle.sparse_grid.specs.Record.{as_grid};
ghost use Rattle.sparse_grid.specs.Validate.{validate, density_fault};
ghost use Rattle.sparse_grid.specs.Lookup.{read_in};
ghost use Rattle.cells.specs.Cells.{cell_count, table_fault};
ghost use Rattle.cells.specs.Counted.{Tabled};
ghost use Rattle.medium.specs.Medium.{medium_fault, map_fault};
ghost use Rattle.medium.specs.Record.{as_medium};
ghost use Rattle.index.specs.Axes.{axis_ends};
ghost use Rattle.index.specs.Answers.{as_line};
ghost use Rattle.index.specs.Outcomes.{as_ends, as_both, said_as};
ghost use Rattle.boxes.specs.Boxes.{box_maximum, as_box};
ghost use Rattle.majorant.specs.Build.{build_into};
ghost use Rattle.majorant.specs.Figures.{figures};
ghost use Rattle.majorant.specs.Rows.{box_made, first_box, second_box, first_holds, box_figure, ends_in, cell_figure, row_of, rows_of};

use crate::range_max::range_max;
use boxes::CoordBox;
use cells::Cells;
use index::{Axis, CellEnds, Ends, Line};
use layout::Coordinate;
use medium::Medium;
use refusals::Refusal;
use sparse_grid::Grid;

// The ends of a cell's boxes on one axis, or why it has none.
type Sides = Result<CellEnds, Refusal>;

// Whether the ends of the second box lie within those of the first.
fn first_holds(a: CellEnds) -> bool
    ensures { result ≡ first_holds (as_both a) }
{
    a.first.lo <= a.second.lo && a.second.hi <= a.first.hi
}

// The box of three axes.
fn box_made(x: Ends, y: Ends, z: Ends) -> CoordBox
    ensures { as_box result ≡ box_made (as_ends x) (as_ends y) (as_ends z) }
{
    CoordBox {
        lo: Coordinate {
            x: x.lo,
            y: y.lo,
            z: z.lo,
        },
        hi: Coordinate {
            x: x.hi,
            y: y.hi,
            z: z.hi,
        },
    }
}

// The maximum of the first box, or 17 where that of the second is greater. A second box within the first is not searched: its maximum is not
// greater.
fn box_figure(grid: &Grid, x: CellEnds, y: CellEnds, z: CellEnds) -> Result<f32, Refusal>
    requires { validate (as_grid grid.now) ≡ 0 }
    ensures { said_by result ≡ box_figure (box_maximum (read_in (as_grid grid.now)))
        (first_box (as_both x) (as_both y) (as_both z)) (second_box (as_both x) (as_both y) (as_both z)) }
{
    let maximum = range_max(grid, box_made(x.first, y.first, z.first));
    if first_holds(x) && first_holds(y) && first_holds(z) {
        return Ok(maximum);
    }
    if maximum < range_max(grid, box_made(x.second, y.second, z.second)) {
        return Err(Refusal::SecondBox);
    }
    Ok(maximum)
}

// The figure of a cell, or the fault of the first axis that has one.
#[tactic(auto, unfolding(crate::specs::Rows::cell_figure))]
fn cell_figure(grid: &Grid, x: Sides, y: Sides, z: Sides) -> Result<f32, Refusal>
    requires { validate (as_grid grid.now) ≡ 0 }
    ensures { said_by result ≡ cell_figure (box_maximum (read_in (as_grid grid.now)))
        (said_as as_both x) (said_as as_both y) (said_as as_both z) }
{
    box_figure(grid, x?, y?, z?)
}

// The ends of the n cells of an axis; past them nothing that is read. An array of 128, the most that n can be: nothing is allocated.
fn axis_table(line: Line, n: u32) -> [Sides; 128]
    requires { n ≤ 128 }
    ensures long { length result ≡ 128 }
    ensures ends { (k : ℕ) → k < n → ends_in result k ≡ axis_ends (as_line line) n k }
{
    let mut table: [Sides; 128] = [Err(Refusal::Cells); 128];
    for k in 0..n {
        table[k as usize] = line.ends(n, k);
    }
    table
}

// The cells of a row, from the place `start` on.
fn row(
    grid: &Grid,
    xs: &[Sides],
    y: Sides,
    z: Sides,
    start: usize,
    majorants: &mut [f32],
) -> Result<(), Refusal>
    requires { (validate (as_grid grid.now) ≡ 0) × (start + length xs.now ≤ length majorants.old) }
    ensures { passing (fault_of result) (ok (take (start + length xs.now) majorants.new))
        ≡ row_of (box_maximum (read_in (as_grid grid.now))) (ends_in xs.now) (said_as as_both y) (said_as as_both z) (length xs.now)
        (take start majorants.old) }
{
    for i in 0..xs.len() {
        majorants[start + i] = cell_figure(grid, xs[i], y, z)?;
    }
    Ok(())
}

// All rows, plane after plane.
fn rows(
    grid: &Grid,
    xs: &[Sides],
    ys: &[Sides],
    zs: &[Sides],
    majorants: &mut [f32],
) -> Result<(), Refusal>
    requires { (validate (as_grid grid.now) ≡ 0) × (length xs.now ≤ 128) × (length ys.now ≤ 128) × (length zs.now ≤ 128) × (0 < length ys.now)
        × (length zs.now * length ys.now * length xs.now ≤ length majorants.old) }
    ensures { passing (fault_of result) (ok (take (length zs.now * length ys.now * length xs.now) majorants.new))
        ≡ rows_of (box_maximum (read_in (as_grid grid.now))) (ends_in xs.now) (ends_in ys.now) (ends_in zs.now)
        (length xs.now) (length ys.now) (length zs.now * length ys.now) (take 0 majorants.old) }
{
    for r in 0..zs.len() * ys.len() {
        row(
            grid,
            xs,
            ys[r % ys.len()],
            zs[r / ys.len()],
            r * xs.len(),
            majorants,
        )?;
    }
    Ok(())
}

// The cells of a medium, in order.
fn cells(grid: &Grid, m: &Medium, majorants: &mut [f32]) -> Result<(), Refusal>
    requires { (validate (as_grid grid.now) ≡ 0) × (map_fault (as_medium m.now) ≡ 0) × Tabled (as_medium m.now).cells (length majorants.old) }
    ensures { passing (fault_of result) (ok majorants.new)
        ≡ figures (box_maximum (read_in (as_grid grid.now))) (as_medium m.now) (as_medium m.now).cells (cell_count (as_medium m.now).cells) }
{
    let [nx, ny, nz] = m.cells;
    let xs = axis_table(Line::of(*m, Axis::X), nx);
    let ys = axis_table(Line::of(*m, Axis::Y), ny);
    let zs = axis_table(Line::of(*m, Axis::Z), nz);
    rows(
        grid,
        &xs[..nx as usize],
        &ys[..ny as usize],
        &zs[..nz as usize],
        majorants,
    )
}

// 23 and 18 for the table, then validate, 15, 4, 14, 13.
fn check(grid: &Grid, m: &Medium, places: usize) -> Result<(), Refusal>
    ensures { fault_of result ≡ (table_fault (as_medium m.now).cells places
        then (validate (as_grid grid.now) then density_fault (as_grid grid.now) then medium_fault (as_medium m.now))) }
{
    let [x, y, z] = m.cells;
    Cells { x, y, z }.check_table(places)?;
    grid.validate()?;
    grid.check_density()?;
    m.check()
}

// The tests, and then the cells.
pub(crate) fn fill(grid: &Grid, m: &Medium, majorants: &mut [f32]) -> Result<(), Refusal>
    ensures { passing (fault_of result) (ok majorants.new) ≡ build_into (as_grid grid.now) (as_medium m.now) (length majorants.old) }
{
    check(grid, m, majorants.len())?;
    cells(grid, m, majorants)
}
