// A lookup: the root whose block a coordinate lies in, and the nodes below it.
ghost use Rattle.std.specs.Prelude.{◌≡◌, ◌<◌, List, Float, MatchOption, length};
ghost use Rattle.refusals.specs.Numbers.{said_by};
ghost use Rattle.layout.specs.Coordinates.{Coord, block_of};
ghost use Rattle.layout.specs.Record.{as_coord};
ghost use Rattle.sparse_grid.specs.Lookup.{lookup, roots_from};
ghost use Rattle.sparse_grid.specs.Answers.{spoken, value_only};
ghost use Rattle.sparse_grid.specs.Spots.{Cube, leaves_of};
ghost use Rattle.sparse_grid.specs.Ends.{found_at, found_by, spoken_by, with_leaves};
ghost use Rattle.sparse_grid.specs.Inner.{placed, root_from};
ghost use Rattle.sparse_grid.specs.Record.{as_grid};

use crate::grid::Grid;
use crate::paired::PairedGrid;
use crate::place::index;
use crate::{Entry, Level, biased};
use layout::Coordinate;
use refusals::Refusal;

// A coordinate plus 2^31 on each axis, so that its slots are plain remainders.
#[derive(Clone, Copy)]
pub(crate) struct Place {
    pub x: u32,
    pub y: u32,
    pub z: u32,
}

// A value and the level that it stood at.
#[derive(Clone, Copy, Debug, PartialEq)]
pub struct Reading {
    pub value: f32,
    pub level: Level,
}

// Where a lookup ends for all coordinates of a cube of 8: in a leaf, or at a value that is theirs all, with its level. A `Reading` in its place would
// be packed into one word and taken apart again at each reading.
#[derive(Clone, Copy, Debug, PartialEq)]
pub enum Spot {
    Leaf(u32),
    Value(f32, Level),
}

// The block of 4,096 coordinates a side that a coordinate lies in: rounded down, below zero too.
fn block_of(c: Coordinate) -> Coordinate
    ensures { as_coord result ≡ block_of (as_coord c) }
{
    Coordinate {
        x: c.x >> 12,
        y: c.y >> 12,
        z: c.z >> 12,
    }
}

impl From<Coordinate> for Place {
    ghost from_gives = { λ c p. placed p ≡ as_coord c };

    fn from(c: Coordinate) -> Place {
        Place {
            x: biased(c.x),
            y: biased(c.y),
            z: biased(c.z),
        }
    }
}

// The answer of a lookup that ends at one value.
fn at_value(value: f32, level: Level) -> Result<Spot, Refusal>
    ensures { result ≡ Ok (Spot.Value value level) }
{
    Ok(Spot::Value(value, level))
}

impl PairedGrid<'_> {
    // The first root that has this block. The list is lent as it stands and nothing is allocated, so it is searched and no map is made of it.
    #[tactic(auto, using(crate::proofs::Nodes::hit, crate::proofs::Nodes::miss, crate::proofs::Nodes::none))]
    fn root_of(&self, block: Coordinate) -> Option<usize>
        ensures { let g = as_grid self.now.grid in
            let first = root_from g.blocks (length g.root_links) 0 (as_coord block) in
            MatchOption result (first ≡ length g.root_links) (λ i. (first ≡ i) × (i < length g.root_links)) }
    {
        for i in 0..self.grid.roots.links.len() {
            if self.has_block(i, block) {
                return Some(i);
            }
        }
        None
    }

    // The way down the tables, where each entry is a child or ends it; the background where no root has the coordinate's block. It and what calls
    // it are compiled into each of their callers: a call hands the tables over in memory, and a lookup takes a third longer.
    #[inline(always)]
    fn spot(&self, coordinate: Coordinate) -> Result<Spot, Refusal>
        ensures { (leaves : List Float) (c : Coord) → Cube c (as_coord coordinate)
            → let g = with_leaves (as_grid self.now.grid) leaves in
            found_by g result c ≡ roots_from g (length g.root_links) 0 c }
    {
        let Some(i) = self.root_of(block_of(coordinate)) else {
            return at_value(self.grid.background, Level::Background);
        };
        let k = match self.grid.roots.at(i) {
            Entry::Child(k) => k,
            Entry::Tile(value) => return at_value(value, Level::RootTile),
        };
        let place = Place::from(coordinate);
        let i = index::<32, 128>(self.grid.upper.links.len(), k, place)?;
        let k = match self.grid.upper.at(i) {
            Entry::Child(k) => k,
            Entry::Tile(value) => return at_value(value, Level::UpperTile),
        };
        let i = index::<16, 8>(self.grid.lower.links.len(), k, place)?;
        match self.grid.lower.at(i) {
            Entry::Child(k) => Ok(Spot::Leaf(k)),
            Entry::Tile(value) => at_value(value, Level::LowerTile),
        }
    }
}

impl Spot {
    // What a lookup that ends here reads at a coordinate of its cube: 11 where the whole leaf is not in its table.
    pub fn read(self, leaf_values: &[f32], coordinate: Coordinate) -> Result<Reading, Refusal>
        ensures { spoken_by result ≡ spoken (found_at (leaves_of leaf_values.now) self (as_coord coordinate)) }
    {
        match self {
            Spot::Leaf(k) => {
                let i = index::<8, 1>(leaf_values.len(), k, Place::from(coordinate))?;
                Ok(Reading {
                    value: leaf_values[i],
                    level: Level::Leaf,
                })
            }
            Spot::Value(value, level) => Ok(Reading { value, level }),
        }
    }
}

impl Grid<'_> {
    // Where the lookup of a coordinate ends, for all coordinates of its cube of 8 and whatever the leaves: 18 where the tables are not paired,
    // 11 for a link that is met and has no whole node.
    #[inline(always)]
    pub fn spot(&self, coordinate: Coordinate) -> Result<Spot, Refusal>
        ensures { (leaves : List Float) (c : Coord) → Cube c (as_coord coordinate)
            → let g = with_leaves (as_grid self.now) leaves in found_by g result c ≡ lookup g c }
    {
        self.paired()?.spot(coordinate)
    }

    // What stands at a coordinate and the level that spoke, whatever the tables.
    #[inline(always)]
    pub fn reading(&self, coordinate: Coordinate) -> Result<Reading, Refusal>
        ensures { spoken_by result ≡ spoken (lookup (as_grid self.now) (as_coord coordinate)) }
    {
        self.spot(coordinate)?.read(self.leaf_values, coordinate)
    }

    // `reading` without the level.
    #[inline(always)]
    pub fn value(&self, coordinate: Coordinate) -> Result<f32, Refusal>
        ensures { said_by result ≡ value_only (lookup (as_grid self.now) (as_coord coordinate)) }
    {
        Ok(self.reading(coordinate)?.value)
    }
}
