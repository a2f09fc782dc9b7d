// The walk of a part of a box below a node: each place of the part is met once, since a part is cut along the cells of the node.
ghost use Rattle.std.specs.Prelude.{◌≡◌, ℕ, ◌+◌, ◌-◌, ◌*◌, ◌/◌, ◌%◌, ◌<◌, ◌≤◌, length};
ghost use Rattle.boxes.specs.RangeMax.{leaf_read, lower_read, upper_read, LowerIn, UpperIn};
ghost use Rattle.sparse_grid.specs.Tables.{entry_at};
ghost use Rattle.sparse_grid.specs.Record.{as_grid};
ghost use Rattle.walk.specs.Walk.{Zone};
ghost use Rattle.majorant.specs.Walks.{Places, Reads, NodeLaws, Within, zone_of, no_reads, lower_reads, upper_reads};
ghost use Rattle.majorant.specs.NodeSums.{positive, at_most, leaf_laws, lower_laws, upper_laws};

use crate::gather::Gather;
use crate::part::{Part, cell_end};
use boxes::Span;
use sparse_grid::{Entries, Entry, Grid, entry_of};

// A node: its own cell of OWN coordinates a side has cells of SIDE.
pub(crate) trait Table {
    ghost SIDE: { ℕ };

    ghost OWN: { ℕ };

    // It is there, and the tables below it fit.
    ghost Whole: { Self → Type 0 };

    ghost read: { Self → Places };

    ghost reads: { Self → Zone → Reads };

    ghost some: { 0 < SIDE };

    ghost few: { SIDE ≤ 128 };

    ghost laws: { (n : Self) → NodeLaws SIDE OWN (reads n) };

    // Not a constant: the check does not state one of a type that borrows.
    fn side(&self) -> usize
        ensures { result ≡ SIDE };
}

// A node that is walked row by row.
pub(crate) trait Node: Table {
    fn row<G: Gather>(&self, part: Part, gathered: &mut G)
        requires { Self.Whole self.now × Within Self.SIDE Self.SIDE Self.OWN part × G.Fit gathered.old (zone_of part) }
        ensures { G.Done (Self.read self.now) (zone_of part) (Self.reads self.now (zone_of part)) gathered.old gathered.new };
}

// A node whose rows are walked cell by cell.
pub(crate) trait Cells: Table {
    fn cell<G: Gather>(&self, part: Part, gathered: &mut G)
        requires { Self.Whole self.now × Within Self.SIDE Self.SIDE Self.SIDE part × G.Fit gathered.old (zone_of part) }
        ensures { G.Done (Self.read self.now) (zone_of part) (Self.reads self.now (zone_of part)) gathered.old gathered.new };
}

// The loops over the cells of a part, along z, y and x: with `for` over the cells' numbers a maximum of one voxel took 1.7 times as long. They and each
// `row` are compiled into their callers: as calls they took six in a hundred more instructions. Three, since along each axis something else stands
// below, a cell, a row or a plane: to say that once takes a trait with three impls.
#[inline(always)]
fn row_cells<N: Cells, G: Gather>(node: &N, part: Part, gathered: &mut G)
    requires { N.Whole node.now × Within N.SIDE N.SIDE N.OWN part × G.Fit gathered.old (zone_of part) }
    ensures { G.Done (N.read node.now) (zone_of part) (N.reads node.now (zone_of part)) gathered.old gathered.new }
{
    let side = node.side();
    let end = part.z.hi;
    let mut at = part.z.lo;
    while at < end {
        let next = cell_end(at, end, side);
        let z = Span { lo: at, hi: next };
        node.cell(Part { z, ..part }, gathered);
        at = next;
    }
}

#[inline(always)]
fn plane<N: Node, G: Gather>(node: &N, part: Part, gathered: &mut G)
    requires { N.Whole node.now × Within N.SIDE N.OWN N.OWN part × G.Fit gathered.old (zone_of part) }
    ensures { G.Done (N.read node.now) (zone_of part) (N.reads node.now (zone_of part)) gathered.old gathered.new }
{
    let side = node.side();
    let end = part.y.hi;
    let mut at = part.y.lo;
    while at < end {
        let next = cell_end(at, end, side);
        let y = Span { lo: at, hi: next };
        node.row(Part { y, ..part }, gathered);
        at = next;
    }
}

#[inline(always)]
pub(crate) fn all<N: Node, G: Gather>(node: &N, part: Part, gathered: &mut G)
    requires { N.Whole node.now × Within N.OWN N.OWN N.OWN part × G.Fit gathered.old (zone_of part) }
    ensures { G.Done (N.read node.now) (zone_of part) (N.reads node.now (zone_of part)) gathered.old gathered.new }
{
    let side = node.side();
    let end = part.x.hi;
    let mut at = part.x.lo;
    while at < end {
        let next = cell_end(at, end, side);
        let x = Span { lo: at, hi: next };
        plane(node, Part { x, ..part }, gathered);
        at = next;
    }
}

// The place of a slot in a node that is `dimension` slots a side.
fn table_index(x: usize, y: usize, z: usize, dimension: usize) -> usize
    requires { (x < 32) × (y < 32) × (z < 32) × (dimension ≤ 32) }
    ensures { result ≡ (x * dimension + y) * dimension + z }
{
    (x * dimension + y) * dimension + z
}

// What stands at i.
#[tactic(auto, using(sparse_grid::proofs::TableLaws::entry_read_lem))]
pub(crate) fn entry(table: Entries, i: usize) -> Entry
    requires link { i < length table.links.now }
    requires value { i < length table.values.now }
    ensures { result ≡ entry_at table.entry.links.now table.entry.values.now i }
{
    entry_of(table.links[i], table.values[i])
}

// Leaf k: its values stand row by row, and a row along z is a run of the table.
#[derive(Clone, Copy)]
struct Leaf<'a> {
    values: &'a [f32],
    k: u32,
}

impl Table for Leaf<'_> {
    ghost SIDE = { 1 };

    ghost OWN = { 8 };

    ghost Whole = { λ n. 512 * n.k + 512 ≤ length n.values.now };

    ghost read = { λ n. leaf_read n.values.now n.k };

    ghost reads = { λ n q. no_reads };

    ghost some = { positive tt };

    ghost few = { at_most tt };

    ghost laws = { λ n. leaf_laws };

    fn side(&self) -> usize {
        1
    }
}

impl Node for Leaf<'_> {
    #[inline(always)]
    fn row<G: Gather>(&self, part: Part, gathered: &mut G) {
        let start = 512 * self.k as usize
            + table_index(part.x.lo % 8, part.y.lo % 8, part.z.lo % 8, 8);
        gathered.row(part, &self.values[start..start + (part.z.hi - part.z.lo)]);
    }
}

// Lower node k: 16 cells of 8 coordinates a side.
#[derive(Clone, Copy)]
struct Lower<'a> {
    grid: &'a Grid<'a>,
    k: u32,
}

impl Table for Lower<'_> {
    ghost SIDE = { 8 };

    ghost OWN = { 128 };

    ghost Whole = { λ n. let g = as_grid n.grid.now in LowerIn g.lower_links g.lower_values g.leaf_values n.k };

    ghost read = { λ n. let g = as_grid n.grid.now in lower_read g.lower_links g.lower_values g.leaf_values n.k };

    ghost reads = { λ n. let g = as_grid n.grid.now in lower_reads g.lower_links g.lower_values n.k };

    ghost some = { positive tt };

    ghost few = { at_most tt };

    ghost laws = { λ n. let g = as_grid n.grid.now in lower_laws g.lower_links g.lower_values n.k };

    fn side(&self) -> usize {
        8
    }
}

impl Cells for Lower<'_> {
    fn cell<G: Gather>(&self, part: Part, gathered: &mut G) {
        gathered.lower();
        let i = 4096 * self.k as usize
            + table_index(
                part.x.lo % 128 / 8,
                part.y.lo % 128 / 8,
                part.z.lo % 128 / 8,
                16,
            );
        match entry(self.grid.lower, i) {
            Entry::Child(j) => {
                gathered.leaf(part);
                let leaf = Leaf {
                    values: self.grid.leaf_values,
                    k: j,
                };
                all(&leaf, part, gathered);
            }
            Entry::Tile(value) => gathered.tile(part, value),
        }
    }
}

impl Node for Lower<'_> {
    #[inline(always)]
    fn row<G: Gather>(&self, part: Part, gathered: &mut G) {
        row_cells(self, part, gathered);
    }
}

// Upper node k: 32 cells of 128 coordinates a side. It and Lower stay two: what differs (the table, the widths, what is counted, what is below and how
// that is read) would be eight members of a level, and no plainer.
#[derive(Clone, Copy)]
pub(crate) struct Upper<'a> {
    pub grid: &'a Grid<'a>,
    pub k: u32,
}

impl Table for Upper<'_> {
    ghost SIDE = { 128 };

    ghost OWN = { 4096 };

    ghost Whole = { λ n. let g = as_grid n.grid.now in
        UpperIn g.upper_links g.upper_values g.lower_links g.lower_values g.leaf_values n.k };

    ghost read = { λ n. let g = as_grid n.grid.now in
        upper_read g.upper_links g.upper_values g.lower_links g.lower_values g.leaf_values n.k };

    ghost reads = { λ n. let g = as_grid n.grid.now in
        upper_reads g.upper_links g.upper_values g.lower_links g.lower_values n.k };

    ghost some = { positive tt };

    ghost few = { at_most tt };

    ghost laws = { λ n. let g = as_grid n.grid.now in
        upper_laws g.upper_links g.upper_values g.lower_links g.lower_values n.k };

    fn side(&self) -> usize {
        128
    }
}

impl Cells for Upper<'_> {
    fn cell<G: Gather>(&self, part: Part, gathered: &mut G) {
        gathered.upper();
        let i = 32768 * self.k as usize
            + table_index(
                part.x.lo % 4096 / 128,
                part.y.lo % 4096 / 128,
                part.z.lo % 4096 / 128,
                32,
            );
        match entry(self.grid.upper, i) {
            Entry::Child(j) => {
                let lower = Lower {
                    grid: self.grid,
                    k: j,
                };
                all(&lower, part, gathered);
            }
            Entry::Tile(value) => gathered.tile(part, value),
        }
    }
}

impl Node for Upper<'_> {
    #[inline(always)]
    fn row<G: Gather>(&self, part: Part, gathered: &mut G) {
        row_cells(self, part, gathered);
    }
}
