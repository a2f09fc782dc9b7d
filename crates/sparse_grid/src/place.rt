// Where a coordinate lies in the nodes.
ghost use Rattle.std.specs.Prelude.{◌≡◌, ◌*◌, ◌/◌, ◌<◌, IfOk};
ghost use Rattle.refusals.specs.Numbers.{said_by};
ghost use Rattle.layout.specs.Coordinates.{mod_z};
ghost use Rattle.sparse_grid.specs.Biased.{back};
ghost use Rattle.sparse_grid.specs.Nodes.{IsLevel, index_in};
ghost use Rattle.sparse_grid.specs.Inner.{placed};

use crate::lookup::Place;
use refusals::Refusal;

// The slot of a biased number on its axis, in nodes of SIDE slots a side, of SPAN coordinates each.
#[tactic(auto, using(crate::proofs::Levels::level_mod))]
fn axis<const SIDE: u32, const SPAN: u32>(n: u32) -> u32
    requires { IsLevel SIDE SPAN }
    ensures is { result ≡ mod_z (back 2147483648 n) (SIDE * SPAN) / SPAN }
    ensures within { result < SIDE }
{
    n % (SIDE * SPAN) / SPAN
}

// The index of a place's slot of node k in a table of `len` entries: 11 where the whole node is not in it.
pub(crate) fn index<const SIDE: u32, const SPAN: u32>(
    len: usize,
    k: u32,
    place: Place,
) -> Result<usize, Refusal>
    requires { IsLevel SIDE SPAN }
    ensures is { said_by result ≡ index_in SIDE SPAN len k (placed place) }
    ensures within { IfOk result (λ i. i < len) }
{
    let slots = (SIDE * SIDE * SIDE) as usize;
    let start = slots * k as usize;
    if len < start + slots {
        return Err(Refusal::Record);
    }
    let x = axis::<SIDE, SPAN>(place.x);
    let y = axis::<SIDE, SPAN>(place.y);
    let z = axis::<SIDE, SPAN>(place.z);
    Ok(start + ((x * SIDE + y) * SIDE + z) as usize)
}
