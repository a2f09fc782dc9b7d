// What C hands over in numbers and flat arrays, and what it takes back in them.
ghost use Rattle.std.specs.Prelude.{◌≡◌, ◌&&◌, eqb, [], ◌∷◌, length};
ghost use Rattle.refusals.specs.Numbers.{fault_of};
ghost use Rattle.sparse_grid.specs.Tables.{grid_of};
ghost use Rattle.sparse_grid.specs.Record.{as_grid};
ghost use Rattle.medium.specs.Record.{as_medium};
ghost use Rattle.boxes.specs.Boxes.{between, as_box};
ghost use Rattle.majorant.specs.Counted.{as_read};
ghost use Rattle.smokegrid.specs.FlatCounted.{five_of};
ghost use Rattle.smokegrid.specs.Flat.{floats_of, corners_of, flat_fault, medium_from};

use boxes::CoordBox;
use layout::Coordinate;
use majorant::Counted;
use medium::Medium;
use refusals::Refusal;
use sparse_grid::{Entries, Grid};

// The grid of a background and eight tables.
pub(crate) fn grid<'a>(
    background: f32,
    blocks: &'a [i32],
    root_links: &'a [u32],
    root_values: &'a [f32],
    upper_links: &'a [u32],
    upper_values: &'a [f32],
    lower_links: &'a [u32],
    lower_values: &'a [f32],
    leaf_values: &'a [f32],
) -> Grid<'a>
    ensures { as_grid result ≡ grid_of background blocks.now root_links.now root_values.now
        upper_links.now upper_values.now lower_links.now lower_values.now
        leaf_values.now }
{
    Grid {
        background,
        blocks,
        roots: Entries {
            links: root_links,
            values: root_values,
        },
        upper: Entries {
            links: upper_links,
            values: upper_values,
        },
        lower: Entries {
            links: lower_links,
            values: lower_values,
        },
        leaf_values,
    }
}

// The box between two corners.
pub(crate) fn corners(lx: i32, ly: i32, lz: i32, hx: i32, hy: i32, hz: i32) -> CoordBox
    ensures { as_box result ≡ between lx ly lz hx hy hz }
{
    CoordBox {
        lo: Coordinate {
            x: lx,
            y: ly,
            z: lz,
        },
        hi: Coordinate {
            x: hx,
            y: hy,
            z: hz,
        },
    }
}

// Whether two arrays have their lengths, m and n.
pub(crate) fn are_long(a: usize, m: usize, b: usize, n: usize) -> bool
    ensures { result ≡ (eqb a m && eqb b n) }
{
    a == m && b == n
}

// Whether these three are a medium.
pub(crate) fn are_medium(m: &[f32], c: &[i32], n: &[u32]) -> bool
    ensures { result ≡ (eqb (length m.now) 18 && eqb (length c.now) 6 && eqb (length n.now) 3) }
{
    m.len() == 18 && c.len() == 6 && n.len() == 3
}

// 18 for an array of another length.
pub(crate) fn check_flat(
    counts: usize,
    medium: usize,
    corners: usize,
    cells: usize,
) -> Result<(), Refusal>
    ensures { fault_of result ≡ flat_fault (record { counts = counts; medium = medium; corners = corners; cells = cells }) }
{
    if counts == 4 && medium == 18 && corners == 6 && cells == 3 {
        Ok(())
    } else {
        Err(Refusal::Tables)
    }
}

// Roots, upper, lower and leaf nodes used.
pub(crate) fn put_counts(counts: &mut [u64], roots: usize, upper: usize, lower: usize, leaf: usize)
    requires { length counts.old ≡ 4 }
    ensures { counts.new ≡ (roots ∷ upper ∷ lower ∷ leaf ∷ []) }
{
    counts.copy_from_slice(&[roots as u64, upper as u64, lower as u64, leaf as u64]);
}

pub(crate) fn put_medium(to: &mut [f32], m: Medium)
    requires { length to.old ≡ 18 }
    ensures { to.new ≡ floats_of (as_medium m) }
{
    let [lx, ly, lz] = m.low;
    let [hx, hy, hz] = m.high;
    let [xx, xy, xz, yx, yy, yz, zx, zy, zz] = m.map;
    let [tx, ty, tz] = m.translation;
    to.copy_from_slice(&[
        lx, ly, lz, hx, hy, hz, xx, xy, xz, yx, yy, yz, zx, zy, zz, tx, ty, tz,
    ]);
}

pub(crate) fn put_corners(to: &mut [i32], m: Medium)
    requires { length to.old ≡ 6 }
    ensures { to.new ≡ corners_of (as_medium m) }
{
    let [lx, ly, lz] = m.index_low;
    let [hx, hy, hz] = m.index_high;
    to.copy_from_slice(&[lx, ly, lz, hx, hy, hz]);
}

// Root entries, upper entries, lower entries, and the high and the low word of the leaf values.
#[tactic(auto, using(crate::proofs::Counting::words_back))]
pub(crate) fn put_read(counts: &mut [u64], c: Counted)
    requires { length counts.old ≡ 5 }
    ensures { counts.new ≡ five_of (as_read c) }
{
    counts.copy_from_slice(&[c.roots, c.upper, c.lower, c.high, c.low]);
}

// The medium of 18 numbers, 6 corners and 3 numbers of cells.
pub(crate) fn medium_from(m: &[f32], c: &[i32], n: &[u32]) -> Medium
    requires { (length m.now ≡ 18) × (length c.now ≡ 6) × (length n.now ≡ 3) }
    ensures { as_medium result ≡ medium_from m.now c.now n.now }
{
    let low = [m[0], m[1], m[2]];
    let high = [m[3], m[4], m[5]];
    let index_low = [c[0], c[1], c[2]];
    let index_high = [c[3], c[4], c[5]];
    let map = [m[6], m[7], m[8], m[9], m[10], m[11], m[12], m[13], m[14]];
    let translation = [m[15], m[16], m[17]];
    let cells = [n[0], n[1], n[2]];
    medium::make_medium(low, high, index_low, index_high, map, translation, cells)
}
