// The tests of the roots: each block in range and no other's, and each entry.
ghost use Rattle.std.specs.Prelude.{◌≡◌, ◌≤◌, ◌<◌, ◌+◌, IfOk, IsTrue, length};
ghost use Rattle.refusals.specs.Faults.{first_fault};
ghost use Rattle.refusals.specs.Numbers.{fault_of};
ghost use Rattle.layout.specs.Coordinates.{same_block};
ghost use Rattle.layout.specs.Record.{as_coord};
ghost use Rattle.sparse_grid.specs.Tables.{block_at};
ghost use Rattle.sparse_grid.specs.Validate.{block_in, earlier, root_fault};
ghost use Rattle.sparse_grid.specs.Biased.{raised};
ghost use Rattle.sparse_grid.specs.Inner.{ranged, rank, Topped};
ghost use Rattle.sparse_grid.specs.Record.{as_grid};

use crate::checks::check_entry;
use crate::lifted;
use crate::paired::PairedGrid;
use layout::Coordinate;
use refusals::Refusal;

// A block's number has 20 bits with its sign.
fn number_in(b: i32) -> bool
    ensures { result ≡ block_in b }
{
    -524288 <= b && b <= 524287
}

fn in_range(block: Coordinate) -> bool
    ensures { result ≡ ranged (as_coord block) }
{
    number_in(block.x) && number_in(block.y) && number_in(block.z)
}

// The number of a block in range plus 2^19: 20 bits.
#[tactic(auto, using(crate::proofs::Signs::raised_below))]
fn digit(number: i32) -> u64
    requires { IsTrue (block_in number) }
    ensures is { result ≡ raised number }
    ensures small { result < 1048576 }
{
    lifted(number) as u64
}

// A number that rises with the blocks: by x, then y, then z.
#[tactic(auto, using(crate::proofs::Blocks::ranged_all), unfolding(crate::specs::Inner::rank))]
fn rank(block: Coordinate) -> u64
    requires { IsTrue (ranged (as_coord block)) }
    ensures is { result ≡ rank (as_coord block) }
    ensures small { result < 1152921504606846976 }
{
    (digit(block.x) * 1048576 + digit(block.y)) * 1048576 + digit(block.z)
}

impl PairedGrid<'_> {
    // The block of root i.
    fn block(&self, i: usize) -> Coordinate
        requires { i < length self.now.grid.roots.links.now }
        ensures { as_coord result ≡ block_at (as_grid self.now.grid) i }
    {
        let blocks = self.grid.blocks;
        Coordinate {
            x: blocks[3 * i],
            y: blocks[3 * i + 1],
            z: blocks[3 * i + 2],
        }
    }

    // Whether root i has this block.
    #[tactic(auto, using(layout::specs::Record::same_coordinate))]
    pub(crate) fn has_block(&self, i: usize, block: Coordinate) -> bool
        requires { i < length self.now.grid.roots.links.now }
        ensures { result ≡ same_block (block_at (as_grid self.now.grid) i) (as_coord block) }
    {
        self.block(i) == block
    }

    // Whether a root before i has this block. Each of them ranks below `top`: where the block does not, it is none of them, and none is compared.
    #[tactic(auto, using(crate::proofs::Blocks::risen, crate::proofs::Blocks::earlier_next, crate::proofs::Blocks::earlier_found))]
    fn repeats(&self, i: usize, block: Coordinate, here: u64, top: u64) -> bool
        requires within { i ≤ length self.now.grid.roots.links.now }
        requires here { here ≡ rank (as_coord block) }
        requires before { Topped self.now.grid.blocks.now i top }
        ensures { result ≡ earlier (as_grid self.now.grid) i (as_coord block) }
    {
        if top <= here {
            return false;
        }
        for j in 0..i {
            if self.has_block(j, block) {
                return true;
            }
        }
        false
    }

    // The block of root i, then its entry. Blocks before it rank below `top`, and those up to it below the answer.
    #[tactic(auto, using(crate::proofs::Blocks::outside, crate::proofs::Blocks::again, crate::proofs::Blocks::entry_left))]
    fn check_root(&self, i: usize, top: u64) -> Result<u64, Refusal>
        requires within { i < length self.now.grid.roots.links.now }
        requires before { Topped self.now.grid.blocks.now i top }
        ensures fault { fault_of result ≡ root_fault (as_grid self.now.grid) i }
        ensures top { IfOk result (λ t. Topped self.now.grid.blocks.now (i + 1) t) }
    {
        let block = self.block(i);
        if !in_range(block) {
            return Err(Refusal::Record);
        }
        let here = rank(block);
        if self.repeats(i, block, here, top) {
            return Err(Refusal::Record);
        }
        let uppers = self.grid.upper.links.len() / 32768;
        check_entry(self.grid.roots.links[i], self.grid.roots.values[i], uppers)?;
        Ok(top.max(here + 1))
    }

    // Root by root.
    #[inline(always)]
    pub(crate) fn check_roots(&self) -> Result<(), Refusal>
        ensures { let g = as_grid self.now.grid in fault_of result ≡ first_fault (length g.root_links) (root_fault g) }
    {
        let mut top: u64 = 0;
        for i in 0..self.grid.roots.links.len() {
            top = self.check_root(i, top)?;
        }
        Ok(())
    }
}
