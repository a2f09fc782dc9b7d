// The tiles of the root, in turn: a block from the tile's key, and a value or the node that stands below it.
ghost use Rattle.std.specs.Prelude.{◌≡◌, ◌&&◌, ℕ, ◌+◌, ◌*◌, ◌/◌, ◌%◌, ◌<◌, ◌≤◌, ◌^◌, length};
ghost use Rattle.layout.specs.Bytes.{signed};
ghost use Rattle.nanovdb.specs.Tree.{key_passes};
ghost use Rattle.nanovdb.specs.Lent.{lengths};
ghost use Rattle.decode.specs.Record.{as_tables, SameSlices};
ghost use Rattle.decode.specs.Inner.Filled.{nodes_of, Fit};
ghost use Rattle.decode.specs.Inner.Rooted.{root_tabs, roots_of, RootPut, TileOut, TilesOut};

use crate::kinds::Kind;
use crate::nodes::State;
use crate::{Tables, nodes};
use layout::Field;
use refusals::Refusal;

// Every bit outside the three fields is 0: 20, 41, 62 and 63.
fn key_passes(key: u64) -> bool
    ensures { result ≡ key_passes key }
{
    key < 4611686018427387904 && key / 1048576 % 2 == 0 && key / 2199023255552 % 2 == 0
}

// A field of 20 bits, with its sign. By hand: std has no number of 20 bits, and a shift up and down again is no plainer.
fn key_field(bits: u64) -> i32
    requires { bits < 1048576 }
    ensures { result ≡ signed 20 bits }
{
    if bits < 524288 {
        bits as i32
    } else {
        bits as i32 - 1048576
    }
}

// Root i: the block of its key, its link and its value.
fn put_root(
    blocks: &mut [i32],
    links: &mut [u32],
    values: &mut [f32],
    i: usize,
    key: u64,
    link: u32,
    value: f32,
)
    requires { (3 * i + 3 ≤ length blocks.old) × (i < length links.old) × (i < length values.old) }
    ensures { let before = root_tabs blocks.old links.old values.old in
        let after = root_tabs blocks.new links.new values.new in
        RootPut i key link value before after }
{
    blocks[3 * i] = key_field(key / 4398046511104 % 1048576);
    blocks[3 * i + 1] = key_field(key / 2097152 % 1048576);
    blocks[3 * i + 2] = key_field(key % 1048576);
    links[i] = link;
    values[i] = value;
}

// Tile i of the root.
fn tile(
    bytes: &[u8],
    root: usize,
    i: usize,
    st: State,
    tables: &mut Tables<'_>,
) -> Result<State, Refusal>
    requires near { (length bytes.now < 4294967296) × (root < 4294967296) × (i < 4294967296) }
    requires room { let t = as_tables tables.old in
        (3 * i + 3 ≤ length t.blocks) × (i < length t.root_links) × (length t.root_values ≡ length t.root_links) }
    requires fit { Fit (length bytes.now) (nodes_of (as_tables tables.old)) st }
    ensures tile { let t = as_tables tables.old in let u = as_tables tables.new in
        TileOut bytes.now root i (nodes_of t) (roots_of t) st (nodes_of u) (roots_of u) result }
    ensures lengths { lengths (as_tables tables.new) ≡ lengths (as_tables tables.old) }
    ensures same { SameSlices tables.old tables.new }
{
    let at = root + 64 + 32 * i;
    let key = u64::at(bytes, at);
    if !key_passes(key) {
        return Err(Refusal::KeyBit);
    }
    let relative = u64::at(bytes, at + 8);
    if relative == 0 {
        let value = f32::at(bytes, at + 20);
        put_root(
            tables.blocks,
            tables.root_links,
            tables.root_values,
            i,
            key,
            0,
            value,
        );
        return Ok(st);
    }
    let to = nodes::child_target(root, relative)?;
    let node = nodes::node(bytes, to, Kind::Upper, st, tables)?;
    put_root(
        tables.blocks,
        tables.root_links,
        tables.root_values,
        i,
        key,
        node.number + 1,
        0.0,
    );
    Ok(node.state)
}

// The first `count` tiles.
pub(crate) fn tiles(
    bytes: &[u8],
    root: usize,
    count: usize,
    st: State,
    tables: &mut Tables<'_>,
) -> Result<State, Refusal>
    requires near { (length bytes.now < 4294967296) × (root < 4294967296) × (count < 4294967296) }
    requires room { let t = as_tables tables.old in
        (length t.blocks ≡ 3 * length t.root_links) × (count ≤ length t.root_links) × (length t.root_values ≡ length t.root_links) }
    requires fit { Fit (length bytes.now) (nodes_of (as_tables tables.old)) st }
    ensures tiles { let t = as_tables tables.old in let u = as_tables tables.new in
        TilesOut bytes.now root count (nodes_of t) (roots_of t) st (nodes_of u) (roots_of u) result }
    ensures lengths { lengths (as_tables tables.new) ≡ lengths (as_tables tables.old) }
    ensures same { SameSlices tables.old tables.new }
{
    let mut now = st;
    for i in 0..count {
        now = tile(bytes, root, i, now, tables)?;
    }
    Ok(now)
}
