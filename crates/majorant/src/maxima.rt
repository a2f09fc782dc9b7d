// The maxima of a list of boxes.
ghost use Rattle.std.specs.Prelude.{◌≡◌, ◌+◌, ◌*◌, ◌≤◌, length, ◌==◌};
ghost use Rattle.refusals.specs.Numbers.{fault_of, said_by};
ghost use Rattle.refusals.specs.Results.{ok};
ghost use Rattle.refusals.specs.Faults.{◌then◌, unless, passing};
ghost use Rattle.sparse_grid.specs.Record.{as_grid};
ghost use Rattle.sparse_grid.specs.Validate.{validate};
ghost use Rattle.sparse_grid.specs.Lookup.{read_in};
ghost use Rattle.boxes.specs.Boxes.{box_maximum, as_box};
ghost use Rattle.majorant.specs.Maxima.{box_at, maxima_of, greatest_of, maxima_into, greatest_into};

use crate::node_max::greater;
use crate::range_max::range_max;
use boxes::CoordBox;
use layout::Coordinate;
use refusals::Refusal;
use sparse_grid::Grid;

// 18 for a list that is not six numbers to a place, then validate. Six times the places may pass 2^64, so the numbers are divided.
fn check(grid: &Grid, numbers: usize, places: usize) -> Result<(), Refusal>
    ensures { fault_of result ≡ (unless (numbers == 6 * places) 18 then validate (as_grid grid.now)) }
{
    if numbers % 6 != 0 || numbers / 6 != places {
        return Err(Refusal::Tables);
    }
    grid.validate()
}

// Box i of a list. C hands in six numbers a box, and without a heap they are not made a list of boxes first.
fn box_at(boxes: &[i32], i: usize) -> CoordBox
    requires { 6 * i + 6 ≤ length boxes.now }
    ensures { as_box result ≡ box_at boxes.now i }
{
    let at = 6 * i;
    CoordBox {
        lo: Coordinate {
            x: boxes[at],
            y: boxes[at + 1],
            z: boxes[at + 2],
        },
        hi: Coordinate {
            x: boxes[at + 3],
            y: boxes[at + 4],
            z: boxes[at + 5],
        },
    }
}

// Writes the maximum of each box and answers the greatest.
fn maxima(grid: &Grid, boxes: &[i32], maxima: &mut [f32]) -> f32
    requires { (validate (as_grid grid.now) ≡ 0) × (length boxes.now ≡ 6 * length maxima.old) }
    ensures { let l = maxima_of (box_maximum (read_in (as_grid grid.now))) boxes.now (length maxima.old) in
        (maxima.new ≡ l) × (result ≡ greatest_of l) }
{
    let mut greatest = 0.0f32;
    for i in 0..maxima.len() {
        let maximum = range_max(grid, box_at(boxes, i));
        maxima[i] = maximum;
        greatest = greater(greatest, maximum);
    }
    greatest
}

// The tests, and then the maxima.
pub(crate) fn fill(grid: &Grid, boxes: &[i32], maxima: &mut [f32]) -> Result<f32, Refusal>
    ensures greatest { said_by result ≡ greatest_into (as_grid grid.now) boxes.now (length maxima.old) }
    ensures table { passing (fault_of result) (ok maxima.new) ≡ maxima_into (as_grid grid.now) boxes.now (length maxima.old) }
{
    check(grid, boxes.len(), maxima.len())?;
    Ok(self::maxima(grid, boxes, maxima))
}
