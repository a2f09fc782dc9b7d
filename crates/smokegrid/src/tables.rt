// The window of the C interface: six words, and the record that they stand for; and the three numbers of cells.
ghost use Rattle.std.specs.Prelude.{◌≡◌, length};
ghost use Rattle.cells.specs.Record.{as_cells};
ghost use Rattle.medium.specs.Record.{cells_of};
ghost use Rattle.smokegrid.specs.FlatTables.{window_from, words_of};

use cells::Cells;
use window::Window;

pub(crate) fn cells_from(n: &[u32]) -> Cells
    requires { length n.now ≡ 3 }
    ensures { as_cells result ≡ cells_of n.now }
{
    Cells {
        x: n[0],
        y: n[1],
        z: n[2],
    }
}

pub(crate) fn window_from(words: &[u32]) -> Window
    requires { length words.now ≡ 6 }
    ensures { result ≡ window_from words.now }
{
    Window {
        w: words[0],
        x: words[1],
        y: words[2],
        z: words[3],
        held: words[4],
        next: words[5],
    }
}

pub(crate) fn put_window(words: &mut [u32], v: Window)
    requires { length words.old ≡ 6 }
    ensures { words.new ≡ words_of v }
{
    words.copy_from_slice(&[v.w, v.x, v.y, v.z, v.held, v.next]);
}
