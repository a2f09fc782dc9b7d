// What a test of the pairs leaves: a grid with a value beside each link and three numbers for each root's block.
ghost use Rattle.sparse_grid.specs.Record.{as_grid};
ghost use Rattle.sparse_grid.specs.Sound.{Paired};

use crate::grid::Grid;

#[derive(Clone, Copy)]
pub(crate) struct PairedGrid<'a> {
    pub(crate) grid: Grid<'a>,
    ghost lengths: { Paired (as_grid grid) },
}
