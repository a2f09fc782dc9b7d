// The lent tables of a grid.
ghost use Rattle.std.specs.Prelude.{◌≡◌, ◌<◌, length};
ghost use Rattle.sparse_grid.specs.Tables.{entry_at};

use crate::{Entry, entry_of};

// Links and the value beside each: link 0 is a tile of that value, k + 1 is child k. Two tables of numbers, since C lends them so.
#[derive(Clone, Copy)]
pub struct Entries<'a> {
    pub links: &'a [u32],
    pub values: &'a [f32],
}

// A background and the tables of roots, nodes and leaves: three numbers of `blocks` are the block of a root, as C lends them.
#[derive(Clone, Copy)]
pub struct Grid<'a> {
    pub background: f32,
    pub blocks: &'a [i32],
    pub roots: Entries<'a>,
    pub upper: Entries<'a>,
    pub lower: Entries<'a>,
    pub leaf_values: &'a [f32],
}

impl Entries<'_> {
    // The entry at i.
    #[tactic(auto, using(crate::proofs::TableLaws::entry_read_lem))]
    pub(crate) fn at(self, i: usize) -> Entry
        requires link { i < length self.links.now }
        requires value { i < length self.values.now }
        ensures { result ≡ entry_at self.entry.links.now self.entry.values.now i }
    {
        entry_of(self.links[i], self.values[i])
    }
}
