// A voxel's coordinate.

// The coordinate of a voxel, or the number of a block on each axis.
#[derive(Clone, Copy, Debug, PartialEq, Eq)]
pub struct Coordinate {
    pub x: i32,
    pub y: i32,
    pub z: i32,
}
