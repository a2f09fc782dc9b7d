// How many cells the world box is cut into on each axis, and the tests that everything over a table of cells begins with.
#![tactic(auto)]

ghost use Rattle.std.specs.Prelude.{◌≡◌};
ghost use Rattle.refusals.specs.Numbers.{fault_of};
ghost use Rattle.cells.specs.Cells.{cells, some_cells, cells_fault, table_fault, table_length};
ghost use Rattle.cells.specs.Record.{as_cells};

use refusals::Refusal;

// The numbers of cells on the three axes.
#[derive(Clone, Copy, Debug, PartialEq, Eq)]
pub struct Cells {
    pub x: u32,
    pub y: u32,
    pub z: u32,
}

// Whether a number of cells on an axis passes.
fn some_cells(n: u32) -> bool
    ensures { result ≡ some_cells n }
{
    1 <= n && n <= 128
}

impl Cells {
    // 23 where one of the three does not.
    #[tactic(auto, unfolding(crate::specs::Cells::cells_fault))]
    pub fn check(self) -> Result<(), Refusal>
        ensures { fault_of result ≡ cells_fault (as_cells self) }
    {
        if some_cells(self.x) && some_cells(self.y) && some_cells(self.z) {
            Ok(())
        } else {
            Err(Refusal::Cells)
        }
    }

    // The length of a table with a figure for each cell: 0 where the numbers do not pass.
    #[tactic(auto, using(crate::specs::Counted::count_small, crate::specs::Counted::counted), unfolding(crate::specs::Cells::table_length))]
    pub fn table_length(self) -> usize
        ensures { result ≡ table_length (as_cells self) }
    {
        match self.check() {
            Ok(()) => (self.x as usize) * (self.y as usize) * (self.z as usize),
            Err(_) => 0,
        }
    }

    // 23, then 18 for a table of another length.
    #[tactic(auto, using(crate::specs::Counted::length_is), unfolding(crate::specs::Cells::table_fault))]
    pub fn check_table(self, places: usize) -> Result<(), Refusal>
        ensures { fault_of result ≡ table_fault (as_cells self) places }
    {
        self.check()?;
        if places == self.table_length() {
            Ok(())
        } else {
            Err(Refusal::Tables)
        }
    }
}
