// The tree: the spans of the header and the root, the tiles, and the node counts.
ghost use Rattle.std.specs.Prelude.{◌≡◌, ◌&&◌, ◌*◌, ◌<◌, ◌≤◌, eqb, length};
ghost use Rattle.layout.specs.Bytes.{u32_at};
ghost use Rattle.nanovdb.specs.Lent.{lengths};
ghost use Rattle.decode.specs.Record.{as_tables, SameSlices};
ghost use Rattle.decode.specs.Inner.Filled.{nodes_of};
ghost use Rattle.decode.specs.Inner.Rooted.{roots_of};
ghost use Rattle.decode.specs.Inner.TreeRead.{Paired, TreeOut};

use crate::nodes::State;
use crate::{Tables, spans, tiles};
use layout::Field;
use refusals::Refusal;

// Where the root stands, how many tiles it has, and how many nodes were reached: counts of lent tables, as in `State`.
#[derive(Clone, Copy)]
pub struct Tree {
    pub root: usize,
    pub roots: usize,
    pub nodes: State,
}

// The counts in the bytes are those of the nodes that were reached.
fn counts_pass(bytes: &[u8], st: State) -> bool
    ensures { let b = bytes.now in
        result ≡ (eqb st.leaves (u32_at b 704) && eqb st.lowers (u32_at b 708) && eqb st.uppers (u32_at b 712)) }
{
    let leaves = u32::at(bytes, 704) as usize;
    let lowers = u32::at(bytes, 708) as usize;
    let uppers = u32::at(bytes, 712) as usize;
    st.leaves == leaves && st.lowers == lowers && st.uppers == uppers
}

pub(crate) fn read_tree(bytes: &[u8], tables: &mut Tables<'_>) -> Result<Tree, Refusal>
    requires short { length bytes.now < 4294967296 }
    requires paired { Paired (lengths (as_tables tables.old)) }
    ensures tree { let t = as_tables tables.old in let u = as_tables tables.new in
        TreeOut bytes.now (nodes_of t) (roots_of t) (nodes_of u) (roots_of u) result }
    ensures lengths { lengths (as_tables tables.new) ≡ lengths (as_tables tables.old) }
    ensures same { SameSlices tables.old tables.new }
{
    let n = bytes.len();
    if n < 736 {
        return Err(Refusal::PastEnd);
    }
    if tables.work.len() < 4 {
        return Err(Refusal::NoPlace);
    }
    let offset = u64::at(bytes, 696) as usize;
    if n - 700 < offset {
        return Err(Refusal::PastEnd);
    }
    let root = 672 + offset;
    let count = u32::at(bytes, root + 24) as usize;
    let limit = root + 64 + 32 * count;
    let spans = spans::begin(n as u64, tables.work, root as u64, limit as u64)?;
    if tables.root_links.len() < count {
        return Err(Refusal::NoPlace);
    }
    let st = State {
        spans,
        uppers: 0,
        lowers: 0,
        leaves: 0,
    };
    let nodes = tiles::tiles(bytes, root, count, st, tables)?;
    if !counts_pass(bytes, nodes) {
        return Err(Refusal::NodeCounts);
    }
    Ok(Tree {
        root,
        roots: count,
        nodes,
    })
}
