// The node reader: a node is read with its children, depth first, slots rising.
// The child mask is read a word at a time: the slots up to the next child are values, and are read in one run.
ghost use Rattle.std.specs.Prelude.{◌≡◌, ◌+◌, ◌*◌, ◌%◌, ◌<◌, ◌≤◌, eqb, length};
ghost use Rattle.refusals.specs.Results.{ok, need};
ghost use Rattle.refusals.specs.Numbers.{said_by};
ghost use Rattle.layout.specs.Bytes.{signed, u64_at};
ghost use Rattle.nanovdb.specs.Nodes.{size_of, entries_of, table_of, child_target};
ghost use Rattle.nanovdb.specs.Lent.{lengths};
ghost use Rattle.decode.specs.Record.{as_tables, SameSlices};
ghost use Rattle.decode.specs.Inner.Kinds.{level_of};
ghost use Rattle.decode.specs.Inner.Stored.{at_upper, at_lower, slot_value, TilesStored, NextChild};
ghost use Rattle.decode.specs.Inner.Filled.{slot_target, count_in, grown_by, room_in};
ghost use Rattle.decode.specs.Inner.Filled.{nodes_of, places_of, Few, Fit, OpenOut, NodeOut};
ghost use Rattle.decode.specs.Inner.Rooted.{roots_of};

use crate::kinds::Kind;
use crate::spans::{Entered, Node, Spans};
use crate::{Tables, spans, values};
use layout::Field;
use refusals::Refusal;

// How far the reader has come: the spans that it has claimed, and how many nodes of each kind it has numbered. Counts beside the tables: these are
// lent and full of zeros, and nothing is allocated, so no list can grow.
#[derive(Clone, Copy)]
pub struct State {
    pub spans: Spans,
    pub uppers: usize,
    pub lowers: usize,
    pub leaves: usize,
}

// A node's number, and the state after it.
#[derive(Clone, Copy)]
pub struct Placed {
    pub number: u32,
    pub state: State,
}

// A new node: its number, where its child mask stands, how many entries it has and where they begin in their table, and the state that counts it.
#[derive(Clone, Copy)]
pub struct Opening {
    pub number: u32,
    pub mask: usize,
    pub entries: usize,
    pub base: usize,
    pub now: State,
}

// A node that has been read before, by its number, or a new one.
#[derive(Clone, Copy)]
pub enum Opened {
    Again(u32),
    Fresh(Opening),
}

// ---- places in the bytes

// A child's place: its parent's, moved by the signed number of these bits, and a multiple of 32.
pub(crate) fn child_target(base: usize, bits: u64) -> Result<usize, Refusal>
    requires { base < 4294967296 }
    ensures { said_by result ≡ child_target base (signed 64 bits) }
{
    match base.checked_add_signed((bits as usize).cast_signed()) {
        Some(to) if to % 32 == 0 => Ok(to),
        _ => Err(Refusal::ChildTarget),
    }
}

// The place of the child whose slot has these bits: none of them set is no place.
fn slot_target(source: usize, bits: u64) -> Result<usize, Refusal>
    requires { source < 4294967296 }
    ensures { said_by result ≡ slot_target source bits }
{
    if bits == 0 {
        return Err(Refusal::ChildTarget);
    }
    child_target(source, bits)
}

// The place of the child in slot i of the node at source.
fn child_at(bytes: &[u8], source: usize, kind: Kind, i: usize) -> Result<usize, Refusal>
    requires { (source < 4294967296) × (i < 32768) }
    ensures { said_by result ≡ slot_target source (u64_at bytes.now (source + table_of (level_of kind) + 8 * i)) }
{
    slot_target(source, u64::at(bytes, source + kind.table() + 8 * i))
}

// The first slot from i on, below n, that has a child, or n. A word of the mask is shifted so that slot `at` is its lowest bit.
fn next_child(bytes: &[u8], mask: usize, i: usize, n: usize) -> usize
    requires { (i ≤ n) × (n ≤ 32768) × (n % 64 ≡ 0) }
    ensures { NextChild bytes.now mask i n result }
{
    let mut at = i;
    while at < n {
        let left = layout::mask_word(bytes, mask, at / 64) >> ((at % 64) as u32);
        if left != 0 {
            return at + (u64::trailing_zeros(left) as usize);
        }
        at = at / 64 * 64 + 64;
    }
    n
}

// ---- places in the lent tables

// How many whole nodes of a kind its table holds.
fn places_of(kind: Kind, tables: &Tables<'_>) -> usize
    ensures { result ≡ places_of (level_of kind) (nodes_of (as_tables tables.now)) }
{
    match kind {
        Kind::Leaf => tables.leaf_values.len() / 512,
        Kind::Lower => tables.lower_links.len() / 4096,
        Kind::Upper => tables.upper_links.len() / 32768,
    }
}

impl State {
    fn count(self, kind: Kind) -> usize
        ensures { result ≡ count_in self (level_of kind) }
    {
        match kind {
            Kind::Leaf => self.leaves,
            Kind::Lower => self.lowers,
            Kind::Upper => self.uppers,
        }
    }

    // The state with one node more of a kind.
    fn grown(self, kind: Kind, spans: Spans) -> State
        requires { Few self }
        ensures { result ≡ grown_by (level_of kind) self spans }
    {
        match kind {
            Kind::Leaf => State {
                spans,
                leaves: self.leaves + 1,
                ..self
            },
            Kind::Lower => State {
                spans,
                lowers: self.lowers + 1,
                ..self
            },
            Kind::Upper => State {
                spans,
                uppers: self.uppers + 1,
                ..self
            },
        }
    }
}

// The link of a child, one more than its number, at a place in the table of its parent's kind.
fn link(kind: Kind, upper_links: &mut [u32], lower_links: &mut [u32], at: usize, child: u32)
    requires { (at < room_in (level_of kind) (length upper_links.old) (length lower_links.old)) × (child < 4294967295) }
    ensures { let level = level_of kind in
        (upper_links.new ≡ at_upper level upper_links.old at (child + 1)) × (lower_links.new ≡ at_lower level lower_links.old at (child + 1)) }
{
    match kind {
        Kind::Leaf => {}
        Kind::Lower => lower_links[at] = child + 1,
        Kind::Upper => upper_links[at] = child + 1,
    }
}

// The values of the slots `from` to `to` of a node at source, none of which has a child.
fn tiles_between(
    kind: Kind,
    bytes: &[u8],
    source: usize,
    base: usize,
    from: usize,
    to: usize,
    upper_values: &mut [f32],
    lower_values: &mut [f32],
)
    requires { (source + size_of (level_of kind) ≤ length bytes.now) × (from ≤ to) × (to ≤ entries_of (level_of kind))
        × (base + entries_of (level_of kind) ≤ room_in (level_of kind) (length upper_values.old) (length lower_values.old)) }
    ensures { let value = slot_value bytes.now source (level_of kind) in
        TilesStored (level_of kind) value base from upper_values.old lower_values.old to upper_values.new lower_values.new }
{
    let table = source + kind.table();
    match kind {
        Kind::Leaf => {}
        Kind::Lower => values::run(bytes, table, lower_values, base, from, to),
        Kind::Upper => values::run(bytes, table, upper_values, base, from, to),
    }
}

// ---- the reader

// The node of a kind at source: one that has been read is used again; a new one is claimed, and numbered where one of its places is left.
fn open(
    bytes: &[u8],
    source: usize,
    kind: Kind,
    st: State,
    tables: &mut Tables<'_>,
) -> Result<Opened, Refusal>
    requires short { length bytes.now < 4294967296 }
    requires fit { Fit (length bytes.now) (nodes_of (as_tables tables.old)) st }
    ensures open { OpenOut (level_of kind) bytes.now source (nodes_of (as_tables tables.old)) st (nodes_of (as_tables tables.new)) result }
    ensures roots { roots_of (as_tables tables.new) ≡ roots_of (as_tables tables.old) }
    ensures lengths { lengths (as_tables tables.new) ≡ lengths (as_tables tables.old) }
    ensures same { SameSlices tables.old tables.new }
{
    let k = st.count(kind);
    let number = k as u32;
    let places = places_of(kind, tables);
    let node = Node {
        start: source as u64,
        kind,
        number,
    };
    match spans::enter(bytes.len() as u64, tables.work, st.spans, node)? {
        Entered::Again(n) => Ok(Opened::Again(n)),
        Entered::Fresh(next) => {
            if places <= k {
                return Err(Refusal::NoPlace);
            }
            let entries = kind.entries();
            Ok(Opened::Fresh(Opening {
                number,
                mask: source + kind.mask(),
                entries,
                base: k * entries,
                now: st.grown(kind, next),
            }))
        }
    }
}

// The node of a kind at source, with all that stands below it: its number, and the state after it.
pub(crate) fn node(
    bytes: &[u8],
    source: usize,
    kind: Kind,
    st: State,
    tables: &mut Tables<'_>,
) -> Result<Placed, Refusal>
    requires short { length bytes.now < 4294967296 }
    requires fit { Fit (length bytes.now) (nodes_of (as_tables tables.old)) st }
    ensures node { NodeOut (level_of kind) bytes.now source (nodes_of (as_tables tables.old)) st (nodes_of (as_tables tables.new)) result }
    ensures roots { roots_of (as_tables tables.new) ≡ roots_of (as_tables tables.old) }
    ensures lengths { lengths (as_tables tables.new) ≡ lengths (as_tables tables.old) }
    ensures same { SameSlices tables.old tables.new }
{
    let o = match open(bytes, source, kind, st, tables)? {
        Opened::Again(number) => return Ok(Placed { number, state: st }),
        Opened::Fresh(o) => o,
    };
    let number = o.number;
    let mut state = o.now;
    let Some(below) = kind.below() else {
        values::leaf(bytes, source, tables.leaf_values, o.base);
        return Ok(Placed { number, state });
    };
    let mut i: usize = 0;
    loop {
        let j = next_child(bytes, o.mask, i, o.entries);
        tiles_between(
            kind,
            bytes,
            source,
            o.base,
            i,
            j,
            tables.upper_values,
            tables.lower_values,
        );
        if j == o.entries {
            return Ok(Placed { number, state });
        }
        let to = child_at(bytes, source, kind, j)?;
        let child = node(bytes, to, below, state, tables)?;
        link(
            kind,
            tables.upper_links,
            tables.lower_links,
            o.base + j,
            child.number,
        );
        state = child.state;
        i = j + 1;
    }
}
