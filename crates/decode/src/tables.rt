// The tables that a caller lends to a decode.
ghost use Rattle.std.specs.Prelude.{◌≡◌, ◌*◌, length, take};
ghost use Rattle.refusals.specs.Numbers.{fault_of};
ghost use Rattle.sparse_grid.specs.Record.{as_grid};
ghost use Rattle.nanovdb.specs.Lent.{lengths, lent_fault, zeros, used_of};
ghost use Rattle.decode.specs.Answers.{counts};
ghost use Rattle.decode.specs.Record.{as_tables, SameSlices};
ghost use Rattle.decode.specs.Inner.GridRead.{leafless, left_in};

use crate::Decoded;
use refusals::Refusal;
use sparse_grid::{Entries, Grid};

// The lent tables: blocks of roots, links and values of entries, values of leaves, and four words a span for the decode's own work.
// Links and values stand side by side, and in no pair: where a struct holds a struct of `&mut` slices, no caller can prove what it gets back.
#[derive(Drop)]
pub struct Tables<'a> {
    pub blocks: &'a mut [i32],
    pub root_links: &'a mut [u32],
    pub root_values: &'a mut [f32],
    pub upper_links: &'a mut [u32],
    pub upper_values: &'a mut [f32],
    pub lower_links: &'a mut [u32],
    pub lower_values: &'a mut [f32],
    pub leaf_values: &'a mut [f32],
    pub work: &'a mut [u64],
}

// The first n parts of `size` elements, or all that there are.
fn first<T>(table: &[T], size: usize, n: usize) -> &[T]
    ensures { result.now ≡ take (size * n) table.now }
{
    table.get(..size.saturating_mul(n)).unwrap_or(table)
}

impl Tables<'_> {
    // 18 for paired tables of unequal length, or blocks that are not three a root. By remainder and quotient, so that no product wraps.
    #[tactic(auto, unfolding(nanovdb::specs::Lent::lent_fault))]
    pub(crate) fn check(&self) -> Result<(), Refusal>
        ensures { fault_of result ≡ lent_fault (lengths (as_tables self.now)) }
    {
        let roots = self.root_links.len();
        if roots != self.root_values.len()
            || self.blocks.len() % 3 != 0
            || self.blocks.len() / 3 != roots
            || self.upper_links.len() != self.upper_values.len()
            || self.lower_links.len() != self.lower_values.len()
        {
            return Err(Refusal::Tables);
        }
        Ok(())
    }

    // Every table but the leaves' is set to zeros: each value of a leaf is stored, and what stands behind the last is zeroed once they are read.
    pub(crate) fn clear_nodes(&mut self)
        ensures tables { leafless (as_tables self.new) ≡ zeros (lengths (leafless (as_tables self.old))) }
        ensures lengths { lengths (as_tables self.new) ≡ lengths (as_tables self.old) }
        ensures same { SameSlices self.old self.new }
    {
        lent::zero(self.blocks);
        lent::zero(self.root_links);
        lent::zero(self.root_values);
        lent::zero(self.upper_links);
        lent::zero(self.upper_values);
        lent::zero(self.lower_links);
        lent::zero(self.lower_values);
        lent::zero(self.work);
    }

    // Every table is set to zeros.
    pub fn clear(&mut self)
        ensures tables { as_tables self.new ≡ zeros (lengths (as_tables self.old)) }
        ensures lengths { lengths (as_tables self.new) ≡ lengths (as_tables self.old) }
        ensures same { SameSlices self.old self.new }
    {
        self.clear_nodes();
        lent::zero(self.leaf_values);
    }

    // The grid of the used parts.
    pub fn used(&self, d: &Decoded) -> Grid<'_>
        ensures { as_grid result ≡ used_of (counts d.now) (as_tables self.now) }
    {
        Grid {
            background: d.background,
            blocks: first(self.blocks, 3, d.roots),
            roots: Entries {
                links: first(self.root_links, 1, d.roots),
                values: first(self.root_values, 1, d.roots),
            },
            upper: Entries {
                links: first(self.upper_links, 32768, d.upper),
                values: first(self.upper_values, 32768, d.upper),
            },
            lower: Entries {
                links: first(self.lower_links, 4096, d.lower),
                values: first(self.lower_values, 4096, d.lower),
            },
            leaf_values: first(self.leaf_values, 512, d.leaf),
        }
    }

    // After a decode the work table is emptied, and the leaves' table behind what was read; after a refusal every table.
    pub(crate) fn leave(&mut self, read: Result<Decoded, Refusal>)
        ensures tables { as_tables self.new ≡ left_in (as_tables self.old) read }
        ensures lengths { lengths (as_tables self.new) ≡ lengths (as_tables self.old) }
        ensures same { SameSlices self.old self.new }
    {
        match read {
            Ok(d) => {
                crate::values::zero_behind(self.leaf_values, d.leaf);
                lent::zero(self.work);
            }
            Err(_) => self.clear(),
        }
    }
}
