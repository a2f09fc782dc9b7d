// From the bytes to the tables (nanovdb.rs, Decoder).
#![tactic(auto)]

ghost use Rattle.std.specs.Prelude.{◌≡◌};
ghost use Rattle.nanovdb.specs.Decode.{decode_scalar, decode_density};
ghost use Rattle.nanovdb.specs.Lent.{lengths, decode_into, answer_of, left_of};
ghost use Rattle.decode.specs.Answers.{answer};
ghost use Rattle.decode.specs.Record.{as_tables, SameSlices};

mod grid;
mod header;
mod kinds;
mod nodes;
mod spans;
mod tables;
mod tiles;
mod tree;
mod values;

use medium::Medium;
use refusals::Refusal;
pub use tables::Tables;

// How many roots and nodes are used, the background and the medium. Counts of tables that the caller lends and keeps, as C asks for them.
#[derive(Clone, Copy)]
pub struct Decoded {
    pub roots: usize,
    pub upper: usize,
    pub lower: usize,
    pub leaf: usize,
    pub background: f32,
    pub medium: Medium,
}

// Everything but 15: a grid whose values may be negative. It and the next differ in the call that reads: a function over that call would need the
// promise of the read, and of what it leaves, as a parameter of the proof, which is no plainer than three lines twice.
pub fn decode_scalar_grid(bytes: &[u8], tables: &mut Tables<'_>) -> Result<Decoded, Refusal>
    ensures answer { let l = lengths (as_tables tables.old) in answer result ≡ answer_of (decode_into decode_scalar bytes.now l) }
    ensures tables { let l = lengths (as_tables tables.old) in as_tables tables.new ≡ left_of l (decode_into decode_scalar bytes.now l) }
    ensures lengths { lengths (as_tables tables.new) ≡ lengths (as_tables tables.old) }
    ensures same { SameSlices tables.old tables.new }
{
    tables.clear_nodes();
    let read = grid::read_scalar(bytes, tables);
    tables.leave(read);
    read
}

// A density grid into lent tables. Accepted, the used parts stand first with zeros past them; refused, every table holds zeros. The work table takes
// four words a span and is left with zeros.
pub fn decode_density_grid(bytes: &[u8], tables: &mut Tables<'_>) -> Result<Decoded, Refusal>
    ensures answer { let l = lengths (as_tables tables.old) in answer result ≡ answer_of (decode_into decode_density bytes.now l) }
    ensures tables { let l = lengths (as_tables tables.old) in as_tables tables.new ≡ left_of l (decode_into decode_density bytes.now l) }
    ensures lengths { lengths (as_tables tables.new) ≡ lengths (as_tables tables.old) }
    ensures same { SameSlices tables.old tables.new }
{
    tables.clear_nodes();
    let read = grid::read_density(bytes, tables);
    tables.leave(read);
    read
}
