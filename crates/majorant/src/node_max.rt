// The greatest of what a walk meets, and what it reads, where that is counted.
ghost use Rattle.std.specs.Prelude.{◌≡◌, ◌<◌, ◌≤◌, false};
ghost use Rattle.std.specs.Float.Ieee.{lt};
ghost use Rattle.float.specs.Zero.{+0};
ghost use Rattle.boxes.specs.Boxes.{greater as greater_s};
ghost use Rattle.boxes.specs.Most.{Most, Joined};
ghost use Rattle.boxes.specs.RangeMax.{wide, read_at};
ghost use Rattle.walk.specs.Gather.{At};
ghost use Rattle.walk.specs.Counts.{More};
ghost use Rattle.majorant.specs.Walks.{zone_of, Reads, CountLaws, Within, size_of, root_reads, one_upper, one_lower, leaf_reads};
ghost use Rattle.majorant.specs.Rooting.{read_of};
ghost use Rattle.majorant.specs.Gathered.{words, uncounted_laws, tally_laws, maximum_laws, MaxAfter, maximum_roots};

use crate::gather::Gather;
use crate::part::Part;
use boxes::Span;
use sparse_grid::Grid;

// b where a is less, and a otherwise. std's `max` passes a NaN over and may answer either of two zeros.
pub(crate) fn greater(a: f32, b: f32) -> f32
    ensures { result ≡ greater_s a b }
{
    if a < b { b } else { a }
}

// What counts the reads of a walk. Upper and lower nodes apart, as the two counts are: one function of both would ask each time which it is.
pub(crate) trait Count {
    // From the one to the other so much was read.
    ghost More: { Reads → Self → Self → Type 0 };

    ghost laws: { CountLaws More };

    fn roots(&mut self, n: u64)
        ensures { More (root_reads n) self.old self.new };

    fn upper(&mut self)
        ensures { More one_upper self.old self.new };

    fn lower(&mut self)
        ensures { More one_lower self.old self.new };

    fn leaf(&mut self, part: Part)
        requires { Within 8 8 8 part }
        ensures { More (leaf_reads (size_of part)) self.old self.new };
}

// Where nobody wants the counts, none are made.
#[derive(Clone, Copy)]
pub(crate) struct Uncounted {}

impl Count for Uncounted {
    ghost More = { λ c s t. Unit {0} };

    ghost laws = { uncounted_laws };

    fn roots(&mut self, n: u64) {}

    fn upper(&mut self) {}

    fn lower(&mut self) {}

    fn leaf(&mut self, part: Part) {}
}

// Root entries, upper entries, lower entries, and leaf values in two words.
#[derive(Clone, Copy)]
pub(crate) struct Tally {
    pub roots: u64,
    pub upper: u64,
    pub lower: u64,
    pub high: u64,
    pub low: u64,
}

impl Count for Tally {
    ghost More = { λ c s t. More (words s) (words t) c.roots c.uppers c.lowers c.leaves };

    ghost laws = { tally_laws };

    fn roots(&mut self, n: u64) {
        self.roots = self.roots.wrapping_add(n);
    }

    fn upper(&mut self) {
        self.upper = self.upper.wrapping_add(1);
    }

    fn lower(&mut self) {
        self.lower = self.lower.wrapping_add(1);
    }

    fn leaf(&mut self, part: Part) {
        let size = part.size() as u64;
        self.low = self.low.wrapping_add(size);
        if self.low < size {
            self.high = self.high.wrapping_add(1);
        }
    }
}

// How many blocks a span meets.
fn blocks_along(span: Span) -> u64
    requires { (span.lo < span.hi) × (span.hi ≤ 4294967296) }
    ensures { (result ≡ wide span.lo span.hi) × (result ≤ 1048576) }
{
    ((span.hi - 1) / 4096 - span.lo / 4096 + 1) as u64
}

// The greatest of +0.0 and the values so far.
#[derive(Clone, Copy)]
pub(crate) struct Maximum<C> {
    pub maximum: f32,
    pub counts: C,
}

impl<C: Count> Gather for Maximum<C> {
    ghost Fit = { λ s q. lt s.maximum +0 ≡ false };

    ghost Done = { λ f q c s t. Joined s.maximum f (At q) t.maximum × C.More c s.counts t.counts };

    ghost laws = { maximum_laws C.Count.laws };

    ghost Able = { λ p. Unit {0} };

    ghost Fresh = { λ s. s.maximum ≡ +0 };

    // A block for each root that meets the box.
    ghost weight = { λ p. 1 };

    ghost After = { λ g p i s t k. MaxAfter C.More g p i s t k };

    ghost Whole = { λ g p s t. Most (read_at g) (At (zone_of p)) t.maximum × C.More (read_of g (zone_of p)) s.counts t.counts };

    ghost roots = { maximum_roots C.Count.laws };

    fn upper(&mut self) {
        self.counts.upper();
    }

    fn lower(&mut self) {
        self.counts.lower();
    }

    fn leaf(&mut self, part: Part) {
        self.counts.leaf(part);
    }

    fn tile(&mut self, part: Part, value: f32) {
        self.maximum = greater(self.maximum, value);
    }

    // A maximum of the row's own, so that rows need not wait for one another.
    fn row(&mut self, part: Part, values: &[f32]) {
        let mut maximum = 0.0f32;
        for v in values {
            maximum = greater(maximum, *v);
        }
        self.maximum = greater(self.maximum, maximum);
    }

    fn weigh(&self, part: Part) -> u64 {
        1
    }

    // Where the roots cover fewer blocks than the box has, some place of it lies in no root, and the background counts.
    fn rest(&mut self, grid: &Grid, of: Part, covered: u64) {
        self.counts.roots(covered);
        if covered < blocks_along(of.x) * (blocks_along(of.y) * blocks_along(of.z)) {
            self.maximum = greater(self.maximum, grid.background);
        }
    }
}
