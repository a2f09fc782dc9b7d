// A layer of a table of cells on paper: a heading, and a line for each y from the highest down, with a character for each x.
#![tactic(auto)]

ghost use Rattle.std.specs.Prelude.{◌≡◌, [], ◌+◌, ◌*◌, ◌≤◌, IfOk, length};
ghost use Rattle.refusals.specs.Results.{value_or};
ghost use Rattle.refusals.specs.Numbers.{fault_of, said_by};
ghost use Rattle.lent.specs.Padded.{padded};
ghost use Rattle.cells.specs.Record.{as_cells};
ghost use Rattle.text.specs.Page.{page, puts};
ghost use Rattle.sheet.specs.Sheet.{layer_of, page_of, sheet_fault, sheet};
ghost use Rattle.sheet.specs.Answers.{length_of};

mod grade;
mod lines;

use cells::Cells;
use figures::check_figures;
use lines::Layer;
use refusals::Refusal;
use text::Page;

// The bytes of a page.
fn size(cells: Cells) -> usize
    requires { (cells.x ≤ 128) × (cells.y ≤ 128) }
    ensures { result ≡ 19 + cells.y * (cells.x + 5) }
{
    19 + (cells.y as usize) * (cells.x as usize + 5)
}

// Layer k, which passes and whose page has room in `room` bytes.
#[tactic(auto, using(crate::proofs::Faults::layer_fits, figures::proofs::Parts::part_is), unfolding(crate::specs::Sheet::sheet_fault))]
fn checked_layer(table: &[f32], cells: Cells, k: u32, room: usize) -> Result<&[f32], Refusal>
    ensures fault { fault_of result ≡ sheet_fault (as_cells cells) k table.now room }
    ensures layer { IfOk result (λ layer. layer.now ≡ layer_of (as_cells cells) k table.now) }
{
    cells.check_table(table.len())?;
    if k >= cells.z {
        return Err(Refusal::Layer);
    }
    let area = (cells.x as usize) * (cells.y as usize);
    let start = (k as usize) * area;
    let layer = &table[start..start + area];
    check_figures(layer)?;
    if size(cells) > room {
        return Err(Refusal::NoPlace);
    }
    Ok(layer)
}

// The page at the front of `text`, and how many bytes it takes.
fn write_page(text: &mut [u8], k: u32, layer: Layer<'_>) -> usize
    ensures { page text.new result ≡ puts (page text.old 0) (page_of layer.entry.x layer.entry.y k layer.entry.figures.now) }
{
    let mut page = Page { bytes: text, at: 0 };
    layer.put_page(&mut page, k);
    page.at
}

// Writes the page of layer k to the front of `text`, and zeros past it, and answers how many bytes it takes. After a refusal there are zeros alone.
pub fn write_layer(table: &[f32], cells: Cells, k: u32, text: &mut [u8]) -> Result<usize, Refusal>
    ensures answer { said_by result ≡ length_of (sheet (as_cells cells) k table.now (length text.old)) }
    ensures text { let n = length text.old in
        text.new ≡ padded n 0 (value_or [] (sheet (as_cells cells) k table.now n)) }
{
    text.fill(0);
    let figures = checked_layer(table, cells, k, text.len())?;
    let layer = Layer::of(figures, cells.x, cells.y);
    Ok(write_page(text, k, layer))
}
