// The lines of the report.
// By hand, as in text: write! promises its bytes only where it answers Ok.
ghost use Rattle.std.specs.Prelude.{◌≡◌, ◌++◌, ◌<◌, ◌^◌, length, get_or};
ghost use Rattle.refusals.specs.Numbers.{number as number_of};
ghost use Rattle.float.specs.Zero.{+0};
ghost use Rattle.medium.specs.Record.{coord_of, as_medium};
ghost use Rattle.sparse_grid.specs.Tables.{block_at};
ghost use Rattle.sparse_grid.specs.Record.{as_grid};
ghost use Rattle.sparse_grid.specs.Sound.{Paired};
ghost use Rattle.text.specs.Written.{Writes};
ghost use Rattle.report.specs.Report.{number, coordinate, triple, bits, box_line, back_line, root_line, root_lines, refused_line};
ghost use Rattle.report.specs.Lines.{numbers};

use medium::Medium;
use refusals::Refusal;
use sparse_grid::Grid;
use text::Page;

// ---- a blank, and what stands behind it: three of two lines each, which a function over a closure would not shorten

fn put_number(page: &mut Page<'_>, n: u64)
    ensures { Writes page.old (number n) page.new }
{
    page.put_byte(b' ');
    page.put_decimal(n);
}

fn put_coordinate(page: &mut Page<'_>, n: i32)
    ensures { Writes page.old (coordinate n) page.new }
{
    page.put_byte(b' ');
    page.put_signed(n);
}

fn put_triple(page: &mut Page<'_>, place: [i32; 3])
    ensures { Writes page.old (triple (coord_of place)) page.new }
{
    put_coordinate(page, place[0]);
    put_coordinate(page, place[1]);
    put_coordinate(page, place[2]);
}

fn put_bits(page: &mut Page<'_>, v: f32)
    ensures { Writes page.old (bits v) page.new }
{
    page.put_byte(b' ');
    page.put_hex8(float::bits_of(v));
}

// ---- the lines

// A word and the numbers behind it.
pub(crate) fn put_line(page: &mut Page<'_>, word: &[u8], values: &[u64])
    ensures { Writes page.old (word.now ++ numbers values.now) page.new }
{
    page.put_bytes(word);
    for n in values {
        put_number(page, *n);
    }
    page.put_byte(b'\n');
}

pub(crate) fn put_box(page: &mut Page<'_>, m: Medium)
    ensures { Writes page.old (box_line (as_medium m)) page.new }
{
    page.put_bytes(b"box");
    put_triple(page, m.index_low);
    put_triple(page, m.index_high);
    page.put_byte(b'\n');
}

pub(crate) fn put_back(page: &mut Page<'_>, v: f32)
    ensures { Writes page.old (back_line v) page.new }
{
    page.put_bytes(b"back");
    put_bits(page, v);
    page.put_byte(b'\n');
}

// Why there is no grid, or no count, by the number of the refusal.
pub(crate) fn put_refused(page: &mut Page<'_>, refusal: Refusal)
    ensures text { Writes page.old (refused_line (number_of refusal)) page.new }
    ensures counted { number_of refusal < 2 ^ 64 }
{
    put_line(page, b"refused", &[u64::from(refusal.number())]);
}

// Root i: its block and its value.
fn put_root(page: &mut Page<'_>, grid: &Grid, i: usize)
    requires paired { Paired (as_grid grid.now) }
    requires within { i < length (as_grid grid.now).root_links }
    ensures { let g = as_grid grid.now in Writes page.old (root_line (block_at g i) (get_or g.root_values i +0)) page.new }
{
    let b = grid.blocks;
    page.put_bytes(b"root");
    put_triple(page, [b[3 * i], b[3 * i + 1], b[3 * i + 2]]);
    put_bits(page, grid.roots.values[i]);
    page.put_byte(b'\n');
}

// All roots, in their order.
pub(crate) fn put_roots(page: &mut Page<'_>, grid: &Grid)
    requires { Paired (as_grid grid.now) }
    ensures { let g = as_grid grid.now in Writes page.old (root_lines g (length g.root_links)) page.new }
{
    for i in 0..grid.roots.links.len() {
        put_root(page, grid, i);
    }
}
