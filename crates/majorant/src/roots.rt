// The roots of a grid in order: a part of a box is walked in the block of each that it meets.
// Coordinates are biased: a coordinate plus 2^31, so that blocks and slots are plain quotients and remainders.
ghost use Rattle.std.specs.Prelude.{◌≡◌, ◌+◌, ◌*◌, ◌<◌, ◌||◌, false, not, length};
ghost use Rattle.sparse_grid.specs.Record.{as_grid};
ghost use Rattle.sparse_grid.specs.Biased.{raised};
ghost use Rattle.sparse_grid.specs.Sound.{Sound};
ghost use Rattle.boxes.specs.Boxes.{as_box};
ghost use Rattle.boxes.specs.RangeMax.{Full, Clip, apart, empty, Linked, child_in};
ghost use Rattle.majorant.specs.Walks.{Within, zone_of};
ghost use Rattle.majorant.specs.Rooting.{SpanOf, PartOf, Rooted, Clips, misses, below, reads_below};

use crate::gather::Gather;
use crate::nodes::{Upper, all, entry};
use crate::part::Part;
use boxes::{CoordBox, Span};
use sparse_grid::{Entry, Grid, biased, lifted};

// The coordinates from lo to hi, ends included.
fn span_of(lo: i32, hi: i32) -> Span
    ensures { SpanOf lo hi result }
{
    Span {
        lo: biased(lo) as usize,
        hi: biased(hi) as usize + 1,
    }
}

impl Part {
    pub(crate) fn of(of: CoordBox) -> Part
        ensures { PartOf (as_box of) result }
    {
        Part {
            x: span_of(of.lo.x, of.hi.x),
            y: span_of(of.lo.y, of.hi.y),
            z: span_of(of.lo.z, of.hi.z),
        }
    }

    // Whether some axis has no place.
    pub(crate) fn is_empty(self) -> bool
        ensures { result ≡ empty self.x self.y self.z }
    {
        self.x.hi <= self.x.lo || self.y.hi <= self.y.lo || self.z.hi <= self.z.lo
    }
}

// Whether a span meets no coordinate of a block of 4,096.
fn is_apart(block: i32, span: Span) -> bool
    requires { span.lo < span.hi }
    ensures { result ≡ apart (raised block) span.lo span.hi }
{
    let b = lifted(block) as usize;
    b < span.lo / 4096 || (span.hi - 1) / 4096 < b
}

// The part of a span in a block of 4,096 coordinates.
fn clip(block: i32, span: Span) -> Span
    ensures { Clip (raised block) span.lo span.hi result.lo result.hi }
{
    let start = lifted(block) as usize * 4096;
    Span {
        lo: span.lo.max(start),
        hi: span.hi.min(start + 4096),
    }
}

// Whether the block of root i has some place of the part.
#[inline(always)]
fn is_met(grid: &Grid, i: usize, of: Part) -> bool
    requires { Rooted (as_grid grid.now) i × Full of.x of.y of.z }
    ensures { misses (as_grid grid.now) i of ≡ not result }
{
    if is_apart(grid.blocks[3 * i], of.x)
        || is_apart(grid.blocks[3 * i + 1], of.y)
        || is_apart(grid.blocks[3 * i + 2], of.z)
    {
        return false;
    }
    true
}

// The part in the block of root i, which meets it.
#[inline(always)]
fn clipped(grid: &Grid, i: usize, of: Part) -> Part
    requires { Rooted (as_grid grid.now) i × Full of.x of.y of.z × (misses (as_grid grid.now) i of ≡ false) }
    ensures { Clips (as_grid grid.now) i of result }
{
    Part {
        x: clip(grid.blocks[3 * i], of.x),
        y: clip(grid.blocks[3 * i + 1], of.y),
        z: clip(grid.blocks[3 * i + 2], of.z),
    }
}

// What is below the entry of root i in the part in its block, and that part. Each arm clips by itself: of a tile the maximum does not ask where it
// stands, and a box over many tiles takes a third longer where that is worked out first.
#[inline(always)]
fn walk_below<G: Gather>(grid: &Grid, entry: Entry, i: usize, of: Part, gathered: &mut G) -> Part
    requires linked { let g = as_grid grid.now in
        child_in entry (length g.upper_links) × Linked g.upper_links g.upper_values g.lower_links g.lower_values g.leaf_values }
    requires met { Rooted (as_grid grid.now) i × Full of.x of.y of.z × (misses (as_grid grid.now) i of ≡ false) }
    requires fit { (c : Part) → Clips (as_grid grid.now) i of c → Within 4096 4096 4096 c × G.Fit gathered.old (zone_of c) }
    ensures part { Clips (as_grid grid.now) i of result }
    ensures done { let g = as_grid grid.now in
        G.Done (below g entry) (zone_of result) (reads_below g entry (zone_of result)) gathered.old gathered.new }
{
    match entry {
        Entry::Child(k) => {
            let part = clipped(grid, i, of);
            all(&Upper { grid, k }, part, gathered);
            part
        }
        Entry::Tile(value) => {
            let part = clipped(grid, i, of);
            gathered.tile(part, value);
            part
        }
    }
}

// Root i more. Blocks differ, so a root that meets the part covers some of it that none before has.
#[inline(always)]
fn walk_root<G: Gather>(grid: &Grid, i: usize, of: Part, covered: u64, gathered: &mut G) -> u64
    requires { Rooted (as_grid grid.now) i × (i + 1 < 18446744073709551616) × Full of.x of.y of.z × G.Able of
        × ((s : G) × G.After (as_grid grid.now) of i s gathered.old covered) }
    ensures { (s : G) → G.After (as_grid grid.now) of i s gathered.old covered
        → G.After (as_grid grid.now) of (i + 1) s gathered.new result }
{
    if !is_met(grid, i, of) {
        return covered;
    }
    let part = walk_below(grid, entry(grid.roots, i), i, of, gathered);
    covered + gathered.weigh(part)
}

pub(crate) fn walk_roots<G: Gather>(grid: &Grid, of: Part, gathered: &mut G)
    requires { Sound (as_grid grid.now) × Full of.x of.y of.z × G.Able of × G.Fresh gathered.old }
    ensures { G.Whole (as_grid grid.now) of gathered.old gathered.new }
{
    let mut covered = 0;
    let roots = grid.roots.links.len();
    for i in 0..roots {
        covered = walk_root(grid, i, of, covered, gathered);
    }
    gathered.rest(grid, of, covered);
}
