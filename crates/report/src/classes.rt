// The coordinates of a grid's index box by class of density, as text.
ghost use Rattle.std.specs.Prelude.{◌≡◌, ◌+◌, ◌<◌, ◌^◌, get_or};
ghost use Rattle.layout.specs.Record.{as_coord};
ghost use Rattle.medium.specs.Record.{coord_of, as_medium};
ghost use Rattle.boxes.specs.Boxes.{as_box};
ghost use Rattle.text.specs.Written.{Writes};
ghost use Rattle.report.specs.ClassReport.{index_box, count_lines, class_text};
ghost use Rattle.report.specs.ClassRoom.{class_text_roomy};

use crate::lines::{put_line, put_refused};
use crate::{ClassText, Text};
use boxes::CoordBox;
use layout::Coordinate;
use majorant::count_classes;
use medium::Medium;
use sparse_grid::Grid;
use text::Page;

fn corner(c: [i32; 3]) -> Coordinate
    ensures { as_coord result ≡ coord_of c }
{
    let [x, y, z] = c;
    Coordinate { x, y, z }
}

fn index_box(m: Medium) -> CoordBox
    ensures { as_box result ≡ index_box (as_medium m) }
{
    CoordBox {
        lo: corner(m.index_low),
        hi: corner(m.index_high),
    }
}

// The lines of the counts of three classes.
fn put_counts(page: &mut Page<'_>, counts: [u64; 17])
    requires { get_or counts 0 0 + get_or counts 1 0 + get_or counts 2 0 < 2 ^ 64 }
    ensures { Writes page.old (count_lines (λ k. get_or counts k 0)) page.new }
{
    for k in 0..3usize {
        put_line(page, b"class", &[k as u64, counts[k]]);
    }
    put_line(page, b"total", &[counts[0] + counts[1] + counts[2]]);
}

impl Text for ClassText {
    ghost text = { class_text };

    ghost room = { class_text_roomy };

    // The counts, or why they are refused: the limits are 0.25 and 0.75.
    fn put(page: &mut Page<'_>, n: u64, grid: &Grid, m: Medium) {
        let limits = [0.25f32, 0.75f32];
        match count_classes(grid, &limits, index_box(m)) {
            Ok(counts) => put_counts(page, counts),
            Err(refusal) => put_refused(page, refusal),
        }
    }
}
