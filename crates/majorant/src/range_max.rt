// The greatest of +0.0 and the voxels of a box, over the lent tables of a grid that passed `validate`, and what is read for it where that is counted.
ghost use Rattle.std.specs.Prelude.{◌≡◌, T};
ghost use Rattle.sparse_grid.specs.Validate.{validate};
ghost use Rattle.sparse_grid.specs.Lookup.{read_in};
ghost use Rattle.sparse_grid.specs.Record.{as_grid};
ghost use Rattle.boxes.specs.Boxes.{as_box, box_maximum};
ghost use Rattle.majorant.specs.Counted.{as_read, read_for};
ghost use Rattle.majorant.specs.Rooting.{reads_for, AreFloats, Floats};
ghost use Rattle.std.specs.Float.{binary32};
ghost use Rattle.std.specs.Float.Ieee.{fits};

use crate::Counted;
use crate::node_max::{Count, Maximum, Tally, Uncounted};
use crate::part::Part;
use crate::roots::walk_roots;
use boxes::CoordBox;
use sparse_grid::Grid;

// What the type says of a table's values, and of all tables: there is no code.
#[tactic(auto, using(crate::proofs::FitLaws::fine))]
fn are_floats(values: &[f32])
    ensures { AreFloats values.now }
{}

fn is_float(value: f32)
    ensures { T (fits binary32 value) }
{}

fn all_floats(grid: &Grid)
    ensures { Floats (as_grid grid.now) }
{
    is_float(grid.background);
    are_floats(grid.roots.values);
    are_floats(grid.upper.values);
    are_floats(grid.lower.values);
    are_floats(grid.leaf_values);
}

// +0.0 where low is above high on some axis.
fn found<C: Count>(grid: &Grid, of: CoordBox, counts: C) -> Maximum<C>
    requires { validate (as_grid grid.now) ≡ 0 }
    ensures maximum { result.maximum ≡ box_maximum (read_in (as_grid grid.now)) (as_box of) }
    ensures reads { C.More (reads_for (as_grid grid.now) (as_box of)) counts result.counts }
{
    all_floats(grid);
    let mut found = Maximum {
        maximum: 0.0,
        counts,
    };
    let part = Part::of(of);
    if !part.is_empty() {
        walk_roots(grid, part, &mut found);
    }
    found
}

pub(crate) fn range_max(grid: &Grid, of: CoordBox) -> f32
    requires { validate (as_grid grid.now) ≡ 0 }
    ensures { result ≡ box_maximum (read_in (as_grid grid.now)) (as_box of) }
{
    found(grid, of, Uncounted {}).maximum
}

pub(crate) fn range_max_counted(grid: &Grid, of: CoordBox) -> Counted
    requires { validate (as_grid grid.now) ≡ 0 }
    ensures { as_read result ≡ read_for (as_grid grid.now) (as_box of) }
{
    let none = Tally {
        roots: 0,
        upper: 0,
        lower: 0,
        high: 0,
        low: 0,
    };
    let found = found(grid, of, none);
    Counted {
        maximum: found.maximum,
        roots: found.counts.roots,
        upper: found.counts.upper,
        lower: found.counts.lower,
        high: found.counts.high,
        low: found.counts.low,
    }
}
