// Boxes of voxels, the greatest of what is read in one, and the parts of a box in roots, nodes and cells: definitions and laws.
// Coordinates in a span are biased: a coordinate plus 2^31, so that blocks and slots are plain quotients and remainders.
#![tactic(auto)]

use layout::Coordinate;

// Every voxel from the low corner to the high one, ends included; none where low is above high on some axis.
#[derive(Clone, Copy)]
pub struct CoordBox {
    pub lo: Coordinate,
    pub hi: Coordinate,
}

// Biased coordinates from lo up to below hi.
#[derive(Clone, Copy)]
pub struct Span {
    pub lo: usize,
    pub hi: usize,
}
