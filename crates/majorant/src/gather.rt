// What a walk of a part of a box gathers.
ghost use Rattle.std.specs.Prelude.{◌≡◌, ℕ, ◌+◌, ◌-◌, ◌<◌, length, slice_index_or};
ghost use Rattle.float.specs.Zero.{+0};
ghost use Rattle.sparse_grid.specs.Tables.{Grid as Tables};
ghost use Rattle.sparse_grid.specs.Record.{as_grid};
ghost use Rattle.sparse_grid.specs.Sound.{Sound};
ghost use Rattle.boxes.specs.RangeMax.{Full};
ghost use Rattle.walk.specs.Walk.{Zone};
ghost use Rattle.majorant.specs.declared.part.Part.{Part};
ghost use Rattle.majorant.specs.Rooting.{RootLaws};
ghost use Rattle.walk.specs.Gather.{At};
ghost use Rattle.majorant.specs.Walks.{Places, Reads, GatherLaws, Alone, Within, zone_of, size_of, one_upper, one_lower, leaf_reads, no_reads};

use crate::part::Part;
use sparse_grid::Grid;

// A state that a walk takes through the parts of a box. `Fit` says that it can take a zone, and `Done` that it has become the other by what stands at
// the places of a zone and by so many reads.
pub(crate) trait Gather {
    ghost Fit: { Self → Zone → Type 0 };

    ghost Done: { Places → Zone → Reads → Self → Self → Type 0 };

    ghost laws: { GatherLaws Fit Done };

    // A box that it can be asked for, a state to begin with, and how much a part covers of a box.
    ghost Able: { Part → Type 0 };

    ghost Fresh: { Self → Type 0 };

    ghost weight: { Part → ℕ };

    // What it has become by the first roots, which cover so much, and by the whole grid.
    ghost After: { Tables → Part → ℕ → Self → Self → ℕ → Type 0 };

    ghost Whole: { Tables → Part → Self → Self → Type 0 };

    ghost roots: { RootLaws Able Fresh Fit Done weight After };

    // An entry of an upper node was read.
    fn upper(&mut self)
        ensures { Alone Fit Done one_upper self.old self.new };

    // An entry of a lower node was read.
    fn lower(&mut self)
        ensures { Alone Fit Done one_lower self.old self.new };

    // The values of a part of a leaf will be read.
    fn leaf(&mut self, part: Part)
        requires { Within 8 8 8 part }
        ensures { Alone Fit Done (leaf_reads (size_of part)) self.old self.new };

    // One value stands at all places of a part.
    fn tile(&mut self, part: Part, value: f32)
        requires { Within 4096 4096 4096 part × Fit self.old (zone_of part) }
        ensures { (f : Places) → ((x y z : ℕ) → At (zone_of part) x y z → f x y z ≡ value) → Done f (zone_of part) no_reads self.old self.new };

    // A value for each place of a part of a row.
    fn row(&mut self, part: Part, values: &[f32])
        requires { Within 1 1 8 part × (length values.now ≡ part.z.hi - part.z.lo) × Fit self.old (zone_of part) }
        ensures { (f : Places) → ((i : ℕ) → i < length values.now → f part.x.lo part.y.lo (part.z.lo + i) ≡ slice_index_or values.now i +0)
            → Done f (zone_of part) no_reads self.old self.new };

    // How much of a box a part in one block covers.
    fn weigh(&self, part: Part) -> u64
        requires { Within 4096 4096 4096 part }
        ensures { result ≡ weight part };

    // All roots were met: the background is what is read in the rest of the box.
    fn rest(&mut self, grid: &Grid, of: Part, covered: u64)
        requires { let g = as_grid grid.now in
            Sound g × Full of.x of.y of.z × Able of × ((s : Self) × After g of (length g.root_links) s self.old covered) }
        ensures { let g = as_grid grid.now in (s : Self) → After g of (length g.root_links) s self.old covered → Whole g of s self.new };
}
