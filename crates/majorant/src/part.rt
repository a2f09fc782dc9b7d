// A part of a box by biased coordinates, and its cells along an axis.
ghost use Rattle.std.specs.Prelude.{◌+◌, ◌-◌, ◌*◌, ◌/◌, ◌<◌, ◌≤◌, ◌≡◌};
ghost use Rattle.boxes.specs.RangeMax.{Full, Cut};
ghost use Rattle.walk.specs.Tallied.{Sides};
ghost use Rattle.majorant.specs.Walks.{size_of};

use boxes::Span;

// The coordinates of three spans.
#[derive(Clone, Copy)]
pub struct Part {
    pub x: Span,
    pub y: Span,
    pub z: Span,
}

// Where the first part of at..end that lies in one cell of `side` coordinates ends.
pub(crate) fn cell_end(at: usize, end: usize, side: usize) -> usize
    requires { (at < end) × (end ≤ 4294967296) × (0 < side) × (side ≤ 128) }
    ensures { Cut side at end result }
{
    let border = at / side * side + side;
    border.min(end)
}

impl Part {
    // How many coordinates it has.
    pub(crate) fn size(self) -> usize
        requires { Full self.x self.y self.z × Sides self.x self.y self.z }
        ensures { result ≡ size_of self }
    {
        (self.x.hi - self.x.lo) * (self.y.hi - self.y.lo) * (self.z.hi - self.z.lo)
    }
}
