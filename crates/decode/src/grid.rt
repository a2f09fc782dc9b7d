// A grid from its bytes: what the lent tables allow, the header, the tree, and the tests of what was read.
ghost use Rattle.std.specs.Prelude.{◌≡◌, ◌<◌};
ghost use Rattle.refusals.specs.Numbers.{fault_of};
ghost use Rattle.nanovdb.specs.Decode.{tree_fault, decode_scalar, decode_density};
ghost use Rattle.nanovdb.specs.Lent.{lengths};
ghost use Rattle.decode.specs.Answers.{counts};
ghost use Rattle.decode.specs.Record.{as_tables, SameSlices};
ghost use Rattle.decode.specs.Inner.TreeRead.{Zeroed};
ghost use Rattle.decode.specs.Inner.Filled.{nodes_of};
ghost use Rattle.decode.specs.Inner.Rooted.{roots_of};
ghost use Rattle.decode.specs.Inner.GridRead.{accepted, counts_of, GridOut};

use crate::tree::{Tree, read_tree};
use crate::{Decoded, Tables, header};
use layout::Field;
use refusals::Refusal;

// What a tree that was read comes to.
fn decoded(bytes: &[u8], x: Tree) -> Decoded
    requires { x.root < 4294967296 }
    ensures { counts result ≡ counts_of bytes.now x }
{
    Decoded {
        roots: x.roots,
        upper: x.nodes.uppers,
        lower: x.nodes.lowers,
        leaf: x.nodes.leaves,
        background: f32::at(bytes, x.root + 28),
        medium: header::medium_at(bytes, x.root),
    }
}

// The tests of a grid that was read, on the used parts of the tables: validate, 13, 14.
#[tactic(auto, unfolding(nanovdb::specs::Decode::tree_fault))]
fn check_grid(tables: &Tables<'_>, d: &Decoded) -> Result<(), Refusal>
    ensures { fault_of result ≡ tree_fault (accepted d.now (as_tables tables.now)) }
{
    tables.used(d).validate()?;
    d.medium.check_map()?;
    d.medium.check_index()
}

// Reads a grid into tables of zeros, and a table of leaves that holds anything.
pub(crate) fn read_scalar(bytes: &[u8], tables: &mut Tables<'_>) -> Result<Decoded, Refusal>
    requires { let t = as_tables tables.old in Zeroed (nodes_of t) (roots_of t) }
    ensures read { GridOut decode_scalar bytes.now (as_tables tables.old) (as_tables tables.new) result }
    ensures lengths { lengths (as_tables tables.new) ≡ lengths (as_tables tables.old) }
    ensures same { SameSlices tables.old tables.new }
{
    tables.check()?;
    header::check_bytes(bytes)?;
    let tree = read_tree(bytes, tables)?;
    let grid = decoded(bytes, tree);
    check_grid(tables, &grid)?;
    Ok(grid)
}

// And then 15.
pub(crate) fn read_density(bytes: &[u8], tables: &mut Tables<'_>) -> Result<Decoded, Refusal>
    requires { let t = as_tables tables.old in Zeroed (nodes_of t) (roots_of t) }
    ensures read { GridOut decode_density bytes.now (as_tables tables.old) (as_tables tables.new) result }
    ensures lengths { lengths (as_tables tables.new) ≡ lengths (as_tables tables.old) }
    ensures same { SameSlices tables.old tables.new }
{
    let d = read_scalar(bytes, tables)?;
    tables.used(&d).check_density()?;
    Ok(d)
}
