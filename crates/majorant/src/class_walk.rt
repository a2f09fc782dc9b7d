// The coordinates that a walk meets, by class.
ghost use Rattle.std.specs.Prelude.{◌≡◌, ℕ, ◌+◌, ◌<◌, ◌≤◌, length, slice_index};
ghost use Rattle.walk.specs.Classes.{class};
ghost use Rattle.walk.specs.Tallied.{Ready, Sides, is_class};
ghost use Rattle.walk.specs.TalliedLaws.{Counts};
ghost use Rattle.boxes.specs.RangeMax.{read_at};
ghost use Rattle.walk.specs.Gather.{tally};
ghost use Rattle.majorant.specs.Walks.{zone_of, size_of};
ghost use Rattle.majorant.specs.Gathered.{Classed, classes_laws, ClassAfter, classes_roots};

use crate::gather::Gather;
use crate::part::Part;
use sparse_grid::Grid;

// The class of a value: how many limits stand before the first one above it. With the limits' iterator in place of the index a count of 4,096
// coordinates takes a quarter more instructions.
fn class_of(limits: &[f32], v: f32) -> usize
    ensures { result ≡ class limits.now v }
{
    for i in 0..limits.len() {
        if v < limits[i] {
            return i;
        }
    }
    limits.len()
}

// How many coordinates so far hold a value of each class. An array of 17, though fewer may be used: nothing is allocated, and C takes 17.
#[derive(Clone, Copy)]
pub(crate) struct Classes<'a> {
    pub limits: &'a [f32],
    pub counts: [u64; 17],
}

impl Classes<'_> {
    // `size` coordinates more in the class of a value.
    pub(crate) fn add(&mut self, value: f32, size: u64)
        requires { (length self.old.limits.now ≤ 16) × (length self.old.counts ≡ 17)
            × ((k : ℕ) → k < 17 → slice_index self.old.counts k + size ≤ 1152921504606846976) }
        ensures { (self.new.limits.now ≡ self.old.limits.now) × (length self.new.counts ≡ length self.old.counts)
            × Counts self.old.limits.now value size self.old.counts self.new.counts }
    {
        let k = class_of(self.limits, value);
        self.counts[k] += size;
    }
}

impl Gather for Classes<'_> {
    ghost Fit = { λ s q. Ready s.limits.now s.counts q };

    ghost Done = { λ f q c s t. Classed f q s t };

    ghost laws = { classes_laws };

    ghost Able = { λ p. Sides p.x p.y p.z };

    ghost Fresh = { λ s. (length s.limits.now ≤ 16) × (length s.counts ≡ 17) × ((k : ℕ) → k < 17 → slice_index s.counts k ≡ 0) };

    ghost weight = { size_of };

    ghost After = { λ g p i s t k. ClassAfter g p i s t k };

    ghost Whole = { λ g p s t. (length t.counts ≡ 17)
        × ((k : ℕ) → k < 17 → slice_index t.counts k ≡ tally (is_class s.limits.now (read_at g) k) (zone_of p)) };

    ghost roots = { classes_roots };

    #[tactic(auto, using(crate::specs::Gathered::classed_none))]
    fn upper(&mut self) {}

    #[tactic(auto, using(crate::specs::Gathered::classed_none))]
    fn lower(&mut self) {}

    #[tactic(auto, using(crate::specs::Gathered::classed_none))]
    fn leaf(&mut self, part: Part) {}

    fn tile(&mut self, part: Part, value: f32) {
        self.add(value, part.size() as u64);
    }

    fn row(&mut self, part: Part, values: &[f32]) {
        for v in values {
            self.add(*v, 1);
        }
    }

    fn weigh(&self, part: Part) -> u64 {
        part.size() as u64
    }

    fn rest(&mut self, grid: &Grid, of: Part, covered: u64) {
        let all = of.size() as u64;
        self.add(grid.background, all - covered);
    }
}
