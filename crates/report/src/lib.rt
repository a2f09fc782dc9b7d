// The text that says what a grid holds, or why it was refused (document 01, `gridreport`), and that of its classes (document 02, A9, `gridclasses`).
#![tactic(auto)]

ghost use Rattle.std.specs.Prelude.{◌≡◌, ◌++◌, ◌≤◌, min, length, take, drop, true};
ghost use Rattle.sparse_grid.specs.Record.{as_grid};
ghost use Rattle.sparse_grid.specs.Sound.{Paired};
ghost use Rattle.sparse_grid.specs.Validate.{validate};
ghost use Rattle.medium.specs.Record.{as_medium};
ghost use Rattle.text.specs.Written.{Writes};
ghost use Rattle.report.specs.Report.{Says, printed_of, grid_text, report_of};
ghost use Rattle.report.specs.ClassReport.{class_report_of};
ghost use Rattle.report.specs.Inner.{accepted};
ghost use Rattle.report.specs.Room.{Roomy, grid_text_room};

mod classes;
mod lines;

use decode::{Tables, decode_density_grid};
use lines::{put_back, put_box, put_line, put_refused, put_roots};
use medium::Medium;
use sparse_grid::Grid;
use text::Page;

// The most bytes that are read.
pub const MOST: usize = 32768;

// A text of a grid of n bytes, for which 65,536 bytes have room.
pub trait Text {
    ghost text: { Says };

    ghost room: { Roomy text };

    // The text of a grid that is valid, as each is that was decoded.
    fn put(page: &mut Page<'_>, n: u64, grid: &Grid, m: Medium)
        ensures { validate (as_grid grid.now) ≡ 0 → Writes page.old (text n (accepted (as_grid grid.now) (as_medium m))) page.new };
}

// What a grid holds.
pub struct GridText {}

// The coordinates of its index box by class of density.
pub struct ClassText {}

fn are_paired(grid: &Grid) -> bool
    ensures paired { result ≡ true → Paired (as_grid grid.now) }
    ensures all { Paired (as_grid grid.now) → result ≡ true }
{
    grid.roots.links.len() == grid.roots.values.len()
        && grid.blocks.len() == 3 * grid.roots.links.len()
        && grid.upper.links.len() == grid.upper.values.len()
        && grid.lower.links.len() == grid.lower.values.len()
}

impl Text for GridText {
    ghost text = { grid_text };

    ghost room = { grid_text_room };

    fn put(page: &mut Page<'_>, n: u64, grid: &Grid, m: Medium) {
        let nodes = [
            grid.roots.links.len() as u64,
            grid.upper.links.len() as u64 / 32768,
            grid.lower.links.len() as u64 / 4096,
            grid.leaf_values.len() as u64 / 512,
        ];
        put_line(page, b"grid", &[n]);
        put_line(page, b"nodes", &nodes);
        put_box(page, m);
        put_back(page, grid.background);
        if are_paired(grid) {
            put_roots(page, grid);
        }
    }
}

// What both programs do with the bytes that they read: a longer input is noticed, the tables are lent, and a refusal has one line.
fn put_printed<T: Text>(page: &mut Page<'_>, bytes: &[u8])
    ensures text { Writes page.old (printed_of T.text bytes.now) page.new }
    ensures room { length (printed_of T.text bytes.now) ≤ 65536 }
{
    if bytes.len() > MOST {
        put_line(page, b"long", &[]);
        return;
    }
    let mut blocks = [0i32; 2997];
    let mut root_links = [0u32; 999];
    let mut root_values = [0.0f32; 999];
    let mut work = [0u64; 8];
    let mut tables = Tables {
        blocks: &mut blocks,
        root_links: &mut root_links,
        root_values: &mut root_values,
        upper_links: &mut [],
        upper_values: &mut [],
        lower_links: &mut [],
        lower_values: &mut [],
        leaf_values: &mut [],
        work: &mut work,
    };
    match decode_density_grid(bytes, &mut tables) {
        Ok(d) => T::put(page, bytes.len() as u64, &tables.used(&d), d.medium),
        Err(refusal) => put_refused(page, refusal),
    }
}

// Writes what a program prints of its input to the front of `out` and answers how many bytes of `out` it takes. What has no room is dropped, and
// 65,536 bytes hold every text. No slice is returned: of one, what `out` holds behind it could not be promised.
pub fn printed<T: Text>(bytes: &[u8], out: &mut [u8]) -> usize
    ensures value { result ≡ min (length (printed_of T.text bytes.now)) (length out.old) }
    ensures out_after { let text = printed_of T.text bytes.now in
        out.new ≡ take (length out.old) text ++ drop (length text) out.old }
    ensures bytes_len_bound { length (printed_of T.text bytes.now) ≤ 65536 }
{
    let mut page = Page { bytes: out, at: 0 };
    put_printed::<T>(&mut page, bytes);
    page.at
}

// Document 01's text, as `gridreport` prints it.
pub fn report(bytes: &[u8], out: &mut [u8]) -> usize
    ensures value { result ≡ min (length (report_of bytes.now)) (length out.old) }
    ensures out_after { let text = report_of bytes.now in
        out.new ≡ take (length out.old) text ++ drop (length text) out.old }
    ensures bytes_len_bound { length (report_of bytes.now) ≤ 65536 }
{
    printed::<GridText>(bytes, out)
}

// The text of the classes, as `gridclasses` prints it.
pub fn class_report(bytes: &[u8], out: &mut [u8]) -> usize
    ensures value { result ≡ min (length (class_report_of bytes.now)) (length out.old) }
    ensures out_after { let text = class_report_of bytes.now in
        out.new ≡ take (length out.old) text ++ drop (length text) out.old }
    ensures bytes_len_bound { length (class_report_of bytes.now) ≤ 65536 }
{
    printed::<ClassText>(bytes, out)
}
