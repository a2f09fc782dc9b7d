// Load a grid, and ask: the decode, the table of majorants built of it, and the answers to a question, with the one claim as
// their promise.
#![tactic(auto)]

ghost use Rattle.std.specs.Prelude.{◌≡◌, ◌<◌, IfSome, IsNone, length};
ghost use Rattle.layout.specs.Coordinates.{Signed32};
ghost use Rattle.layout.specs.Record.{as_coord};
ghost use Rattle.cells.specs.Cells.{cell_count};
ghost use Rattle.cells.specs.Counted.{Counted, Tabled};
ghost use Rattle.sparse_grid.specs.Record.{as_grid};
ghost use Rattle.medium.specs.Record.{as_medium, point_of};
ghost use Rattle.nanovdb.specs.Lent.{lengths};
ghost use Rattle.decode.specs.Record.{as_tables, SameSlices};
ghost use Rattle.index.specs.Found.{cell_at};
ghost use Rattle.claim.specs.Load.{Loads};
ghost use Rattle.claim.specs.Answered.{Asks};
ghost use Rattle.claim.specs.Asked.{as_question, as_load, as_answer, as_found};
ghost use Rattle.claim.specs.Inner.{seen_in, found_in};

use boxes::CoordBox;
use decode::{Decoded, Tables, decode_density_grid};
use index::{Axis, Line};
use layout::Coordinate;
use majorant::{box_maximum, build_majorant};
use medium::Medium;
use refusals::Refusal;
use sparse_grid::Grid;

// What the decode says, and whether the build of its grid passed.
#[derive(Clone, Copy)]
pub struct Loaded {
    pub decoded: Decoded,
    pub build: Result<(), Refusal>,
}

// What is asked: a voxel's coordinate, a box of voxels, and a point of the world.
#[derive(Clone, Copy)]
pub struct Question {
    pub coordinate: Coordinate,
    pub of: CoordBox,
    pub point: [f32; 3],
}

// A cell that encloses the point, by its number, and its figure.
#[derive(Clone, Copy)]
pub struct Found {
    pub cell: u32,
    pub figure: f32,
}

// What the load answers; the voxel, and the greatest of zero and the voxels of the box; a cell of the point, none where none encloses it and where the
// build was refused.
#[derive(Clone, Copy)]
pub struct Asked {
    pub loaded: Loaded,
    pub value: f32,
    pub maximum: f32,
    pub found: Option<Found>,
}

// What a grid answers.
#[derive(Clone, Copy)]
struct Seen {
    value: f32,
    maximum: f32,
}

// The first cell on each axis that encloses the point, as one number.
fn cell_at(m: &Medium, p: [f32; 3]) -> Option<u32>
    requires { Counted (as_medium m.now).cells }
    ensures found { IfSome result (λ k. (k < cell_count (as_medium m.now).cells) × (cell_at (as_medium m.now) (as_medium m.now).cells (point_of p) ≡ k)) }
    ensures none { IsNone result → cell_at (as_medium m.now) (as_medium m.now).cells (point_of p) ≡ cell_count (as_medium m.now).cells }
{
    let [nx, ny, nz] = m.cells;
    let x = Line::of(*m, Axis::X).cell(nx, p[0])?;
    let y = Line::of(*m, Axis::Y).cell(ny, p[1])?;
    let z = Line::of(*m, Axis::Z).cell(nz, p[2])?;
    Some((z * ny + y) * nx + x)
}

// The cell of a point and its figure.
fn found_in(m: &Medium, figures: &[f32], p: [f32; 3]) -> Option<Found>
    requires { Tabled (as_medium m.now).cells (length figures.now) }
    ensures { as_found 0 (cell_count (as_medium m.now).cells) result ≡ found_in 0 (as_medium m.now) figures.now (point_of p) }
{
    let cell = cell_at(m, p)?;
    Some(Found {
        cell,
        figure: figures[cell as usize],
    })
}

// A voxel and the maximum of a box, of a grid.
fn seen_in(grid: &Grid, q: Question) -> Seen
    ensures { result ≡ seen_in 0 (as_grid grid.now) (as_question q) }
{
    Seen {
        value: grid.value(q.coordinate).unwrap_or(0.0),
        maximum: box_maximum(grid, q.of).unwrap_or(0.0),
    }
}

// Decodes a density grid into the lent tables, and builds the table of majorants of it. Where the decode is not refused the tables are filled and the
// claim holds of them; a refused decode leaves zeros in them, and a refused build in the table of majorants alone.
pub fn load(bytes: &[u8], tables: &mut Tables<'_>, majorants: &mut [f32]) -> Result<Loaded, Refusal>
    ensures load { Loads bytes.now (lengths (as_tables tables.old)) (length majorants.old)
        (as_load result) (as_tables tables.new) majorants.new }
    ensures same { SameSlices tables.old tables.new }
{
    match decode_density_grid(bytes, tables) {
        Ok(decoded) => {
            let build = build_majorant(&tables.used(&decoded), &decoded.medium, majorants);
            Ok(Loaded { decoded, build })
        }
        Err(refusal) => {
            lent::zero(majorants);
            Err(refusal)
        }
    }
}

// What the type says of a coordinate's numbers: the logic tells it where a field is read.
fn told(c: Coordinate)
    ensures { Signed32 (as_coord c) }
{
    let _x = c.x;
    let _y = c.y;
    let _z = c.z;
}

// Loads, and answers a question.
pub fn ask(
    bytes: &[u8],
    tables: &mut Tables<'_>,
    majorants: &mut [f32],
    q: Question,
) -> Result<Asked, Refusal>
    ensures answer { Asks bytes.now (lengths (as_tables tables.old)) (length majorants.old) (as_question q)
        (as_answer result) (as_tables tables.new) majorants.new }
    ensures same { SameSlices tables.old tables.new }
{
    let loaded = load(bytes, tables, majorants)?;
    let seen = seen_in(&tables.used(&loaded.decoded), q);
    told(q.coordinate);
    told(q.of.lo);
    told(q.of.hi);
    let found = match loaded.build {
        Ok(()) => found_in(&loaded.decoded.medium, majorants, q.point),
        Err(_) => None,
    };
    Ok(Asked {
        loaded,
        value: seen.value,
        maximum: seen.maximum,
        found,
    })
}
