// A sparse grid of lent tables (sparse_grid.rs): its entries, `validate`, `validate_density`, `reading`, `value`, and the way down for a cube of 8.
#![tactic(auto)]

ghost use Rattle.std.specs.Prelude.{◌≡◌};
ghost use Rattle.sparse_grid.specs.Tables.{entry_of};
ghost use Rattle.sparse_grid.specs.Biased.{back, raised};

mod checks;
mod grid;
pub mod lookup;
mod paired;
mod place;
mod roots;

pub use grid::{Entries, Grid};
pub use lookup::{Reading, Spot};

// What stands at a slot of a node or beside a root's block: the number of a child, or a value for every coordinate below it.
#[derive(Clone, Copy, Debug, PartialEq)]
pub enum Entry {
    Child(u32),
    Tile(f32),
}

// Where a lookup stopped: the node or the table whose value it is, and the background where no root has the block.
#[derive(Clone, Copy, Debug, PartialEq, Eq)]
pub enum Level {
    Background,
    RootTile,
    UpperTile,
    LowerTile,
    Leaf,
}

// Link 0 is a tile, k + 1 is child k. Callers read the two where the index is known to be in the tables.
pub fn entry_of(link: u32, value: f32) -> Entry
    ensures { result ≡ entry_of link value }
{
    if link == 0 {
        Entry::Tile(value)
    } else {
        Entry::Child(link - 1)
    }
}

// A coordinate plus 2^31.
pub fn biased(c: i32) -> u32
    ensures { c ≡ back 2147483648 result }
{
    (c as i64 + 2147483648) as u32
}

// A block's number plus 2^19, modulo 2^32: a test of the range here would be made again for every root of every box.
pub fn lifted(block: i32) -> u32
    ensures { result ≡ raised block }
{
    biased(block).wrapping_add(2148007936)
}
