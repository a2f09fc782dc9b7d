// The tables that C lends, slice by slice: the three functions that write them, over the struct that the crates below take. Each makes the struct for
// itself: its slices share one lifetime, while those of C's functions have one each, and a struct made in a function of its own is no shorter to take.
ghost use Rattle.std.specs.Prelude.{◌≡◌};
ghost use Rattle.nanovdb.specs.Decode.{decode_density};
ghost use Rattle.nanovdb.specs.Lent.{tables, lengths, zeros, decode_into, answer_of, left_of};
ghost use Rattle.decode.specs.Answers.{answer};
ghost use Rattle.temperature.specs.Temperature.{heated, load_into};
ghost use Rattle.temperature.specs.Answers.{loaded, loaded_of};

use decode::{Decoded, Tables, decode_density_grid};
use refusals::Refusal;
use temperature::{Loaded, load_temperature};

pub(crate) fn clear<'a>(
    blocks: &'a mut [i32],
    root_links: &'a mut [u32],
    root_values: &'a mut [f32],
    upper_links: &'a mut [u32],
    upper_values: &'a mut [f32],
    lower_links: &'a mut [u32],
    lower_values: &'a mut [f32],
    leaf_values: &'a mut [f32],
    work: &'a mut [u64],
)
    ensures { let before = tables blocks.old root_links.old root_values.old upper_links.old
        upper_values.old lower_links.old lower_values.old leaf_values.old work.old in
        let after = tables blocks.new root_links.new root_values.new upper_links.new
        upper_values.new lower_links.new lower_values.new leaf_values.new work.new in
        after ≡ zeros (lengths before) }
{
    let mut tables = Tables {
        blocks,
        root_links,
        root_values,
        upper_links,
        upper_values,
        lower_links,
        lower_values,
        leaf_values,
        work,
    };
    tables.clear();
}

pub(crate) fn decode<'a>(
    bytes: &[u8],
    blocks: &'a mut [i32],
    root_links: &'a mut [u32],
    root_values: &'a mut [f32],
    upper_links: &'a mut [u32],
    upper_values: &'a mut [f32],
    lower_links: &'a mut [u32],
    lower_values: &'a mut [f32],
    leaf_values: &'a mut [f32],
    work: &'a mut [u64],
) -> Result<Decoded, Refusal>
    ensures answer { let before = tables blocks.old root_links.old root_values.old upper_links.old
        upper_values.old lower_links.old lower_values.old leaf_values.old work.old in
        answer result ≡ answer_of (decode_into decode_density bytes.now (lengths before)) }
    ensures tables { let before = tables blocks.old root_links.old root_values.old upper_links.old
        upper_values.old lower_links.old lower_values.old leaf_values.old work.old in
        let after = tables blocks.new root_links.new root_values.new upper_links.new
        upper_values.new lower_links.new lower_values.new leaf_values.new work.new in
        after ≡ left_of (lengths before) (decode_into decode_density bytes.now (lengths before)) }
{
    let mut tables = Tables {
        blocks,
        root_links,
        root_values,
        upper_links,
        upper_values,
        lower_links,
        lower_values,
        leaf_values,
        work,
    };
    decode_density_grid(bytes, &mut tables)
}

pub(crate) fn load<'a>(
    bytes: &[u8],
    offset: f32,
    scale: f32,
    blocks: &'a mut [i32],
    root_links: &'a mut [u32],
    root_values: &'a mut [f32],
    upper_links: &'a mut [u32],
    upper_values: &'a mut [f32],
    lower_links: &'a mut [u32],
    lower_values: &'a mut [f32],
    leaf_values: &'a mut [f32],
    work: &'a mut [u64],
) -> Result<Loaded, Refusal>
    ensures answer { let before = tables blocks.old root_links.old root_values.old upper_links.old
        upper_values.old lower_links.old lower_values.old leaf_values.old work.old in
        loaded result ≡ loaded_of (heated offset scale) (load_into bytes.now (heated offset scale) (lengths before)) }
    ensures tables { let before = tables blocks.old root_links.old root_values.old upper_links.old
        upper_values.old lower_links.old lower_values.old leaf_values.old work.old in
        let after = tables blocks.new root_links.new root_values.new upper_links.new
        upper_values.new lower_links.new lower_values.new leaf_values.new work.new in
        after ≡ left_of (lengths before) (load_into bytes.now (heated offset scale) (lengths before)) }
{
    let mut tables = Tables {
        blocks,
        root_links,
        root_values,
        upper_links,
        upper_values,
        lower_links,
        lower_values,
        leaf_values,
        work,
    };
    load_temperature(bytes, offset, scale, &mut tables)
}
