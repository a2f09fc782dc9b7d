// The functions of the C interface (include/smokegrid.h), which `smokegrid_c` exports. Each may be called with anything. That interface is fixed, and
// knows numbers and arrays alone: so a refusal is answered by its number, a record comes as a flat array, and the tables of a grid as eight slices.
#![tactic(auto)]

ghost use Rattle.std.specs.Prelude.{◌≡◌, length};
ghost use Rattle.refusals.specs.Results.{number_of, value_or};
ghost use Rattle.float.specs.Zero.{+0};
ghost use Rattle.sparse_grid.specs.Tables.{grid_of};
ghost use Rattle.sparse_grid.specs.Validate.{validate as validate_s, validate_density};
ghost use Rattle.refusals.specs.Numbers.{said_by};
ghost use Rattle.sparse_grid.specs.Answers.{unspoken, level_of, level_number, at};
ghost use Rattle.sparse_grid.specs.Ends.{spoken_by};
ghost use Rattle.contents.specs.Answers.{span_said};
ghost use Rattle.nanovdb.specs.Lent.{tables, lengths};
ghost use Rattle.boxes.specs.Boxes.{between};
ghost use Rattle.contents.specs.Contents.{pick, pick_name};
ghost use Rattle.smokegrid.specs.Flat.{Arrays};
ghost use Rattle.smokegrid.specs.FlatRay.{beam};
ghost use Rattle.smokegrid.specs.FlatTables.{window_arrays};
ghost use Rattle.smokegrid.specs.Promises.{Decodes, GetsValue, GetsReading, BoxMaximum, BoxMaxima, WorldToIndex, MixesAt, Builds, GivesPart};
ghost use Rattle.smokegrid.specs.Promises.{CountsBox, CountsClasses, LoadsTemperature, GetsTemperature};
ghost use Rattle.smokegrid.specs.Promises.{OpensRay, NextPiece, PrintsLayer, OpensWindow, PushesTable};

mod flat;
mod nine;
mod ray;
mod tables;

use boxes::CoordBox;
use contents::{Span, grid_span, name_span};
use flat::{
    are_long, are_medium, check_flat, corners, grid, medium_from, put_corners, put_counts,
    put_medium, put_read,
};
use index::index_position;
use layout::Coordinate;
use lent::zero;
use majorant::{box_maxima, box_maximum, box_maximum_counted, build_majorant, count_classes};
use medium::Temperature;
use mix::density_at;
use ray::{can_open, is_ray, put_numbers, put_times, ray_from};
use rays::{Beam, Ray};
use refusals::{Refusal, fault};
use sheet::write_layer;
use sparse_grid::Level;
use sparse_grid::lookup::Reading;
use tables::{cells_from, put_window, window_from};
use temperature::heat_at;
use window::Window;

// An answer as C takes it: the value through `value`, +0.0 after a refusal, and the number.
fn give(found: Result<f32, Refusal>, value: &mut f32) -> u32
    ensures number { result ≡ number_of (said_by found) }
    ensures value { value.new ≡ value_or +0 (said_by found) }
{
    match found {
        Ok(v) => {
            *value = v;
            0
        }
        Err(refusal) => {
            *value = 0.0;
            refusal.number()
        }
    }
}

// A level's number, as C takes it, is its place in the enum.
fn level_number(level: Level) -> u32
    ensures { result ≡ level_number (level_of level) }
{
    level as u32
}

// A reading as C takes it: the value and the level through their pointers, +0.0 and background after a refusal, and the number.
fn give_reading(found: Result<Reading, Refusal>, value: &mut f32, level: &mut u32) -> u32
    ensures number { result ≡ number_of (spoken_by found) }
    ensures value { value.new ≡ (value_or unspoken (spoken_by found)).value }
    ensures level { level.new ≡ level_number (value_or unspoken (spoken_by found)).level }
{
    match found {
        Ok(reading) => {
            *value = reading.value;
            *level = level_number(reading.level);
            0
        }
        Err(refusal) => {
            *value = 0.0f32;
            *level = 0;
            refusal.number()
        }
    }
}

// Decodes a density grid into the lent tables: 0, or the number of the refusal. Counts, background, medium and corners are written through their pointers.
pub fn smokegrid_decode_density_grid(
    bytes: &[u8],
    blocks: &mut [i32],
    root_links: &mut [u32],
    root_values: &mut [f32],
    upper_links: &mut [u32],
    upper_values: &mut [f32],
    lower_links: &mut [u32],
    lower_values: &mut [f32],
    leaf_values: &mut [f32],
    work: &mut [u64],
    counts: &mut [u64],
    background: &mut f32,
    medium: &mut [f32],
    corners: &mut [i32],
    cells: &mut [u32],
) -> u32
    ensures { let lent = lengths (tables
        blocks.old root_links.old root_values.old upper_links.old
        upper_values.old lower_links.old lower_values.old leaf_values.old
        work.old) in
        let left = tables
        blocks.new root_links.new root_values.new upper_links.new
        upper_values.new lower_links.new lower_values.new leaf_values.new
        work.new in
        let arrays : Arrays = record {
          counts = length counts.old;
          medium = length medium.old;
          corners = length corners.old;
          cells = length cells.old;
        } in
        Decodes bytes.now lent arrays result (record {
          tables = left;
          counts = counts.new;
          background = background.new;
          medium = medium.new;
          corners = corners.new;
          cells = cells.new;
        }) }
{
    let fits = check_flat(counts.len(), medium.len(), corners.len(), cells.len());
    zero(counts);
    zero(medium);
    zero(corners);
    zero(cells);
    *background = 0.0;
    if let Err(refusal) = fits {
        nine::clear(
            blocks,
            root_links,
            root_values,
            upper_links,
            upper_values,
            lower_links,
            lower_values,
            leaf_values,
            work,
        );
        return refusal.number();
    }
    match nine::decode(
        bytes,
        blocks,
        root_links,
        root_values,
        upper_links,
        upper_values,
        lower_links,
        lower_values,
        leaf_values,
        work,
    ) {
        Ok(d) => {
            *background = d.background;
            put_counts(counts, d.roots, d.upper, d.lower, d.leaf);
            put_medium(medium, d.medium);
            put_corners(corners, d.medium);
            let [x, y, z] = d.medium.cells;
            cells.copy_from_slice(&[x, y, z]);
            0
        }
        Err(refusal) => refusal.number(),
    }
}

// The number of the first fault, and 0 for none.
pub fn smokegrid_validate(
    background: f32,
    blocks: &[i32],
    root_links: &[u32],
    root_values: &[f32],
    upper_links: &[u32],
    upper_values: &[f32],
    lower_links: &[u32],
    lower_values: &[f32],
    leaf_values: &[f32],
) -> u32
    ensures { let g = grid_of background
        blocks.now root_links.now root_values.now upper_links.now
        upper_values.now lower_links.now lower_values.now leaf_values.now in
        result ≡ validate_s g }
{
    let grid = grid(
        background,
        blocks,
        root_links,
        root_values,
        upper_links,
        upper_values,
        lower_links,
        lower_values,
        leaf_values,
    );
    fault(grid.validate())
}

// `smokegrid_validate`, and then 15 for a value below zero.
pub fn smokegrid_validate_density(
    background: f32,
    blocks: &[i32],
    root_links: &[u32],
    root_values: &[f32],
    upper_links: &[u32],
    upper_values: &[f32],
    lower_links: &[u32],
    lower_values: &[f32],
    leaf_values: &[f32],
) -> u32
    ensures { let g = grid_of background
        blocks.now root_links.now root_values.now upper_links.now
        upper_values.now lower_links.now lower_values.now leaf_values.now in
        result ≡ validate_density g }
{
    let grid = grid(
        background,
        blocks,
        root_links,
        root_values,
        upper_links,
        upper_values,
        lower_links,
        lower_values,
        leaf_values,
    );
    fault(grid.validate_density())
}

// The value at a coordinate, through `value`, and 0; or the number of the refusal, and +0.0 for the value.
pub fn smokegrid_get_value(
    background: f32,
    blocks: &[i32],
    root_links: &[u32],
    root_values: &[f32],
    upper_links: &[u32],
    upper_values: &[f32],
    lower_links: &[u32],
    lower_values: &[f32],
    leaf_values: &[f32],
    x: i32,
    y: i32,
    z: i32,
    value: &mut f32,
) -> u32
    ensures { let g = grid_of background
        blocks.now root_links.now root_values.now upper_links.now
        upper_values.now lower_links.now lower_values.now leaf_values.now in
        GetsValue g (at x y z) result value.new }
{
    let grid = grid(
        background,
        blocks,
        root_links,
        root_values,
        upper_links,
        upper_values,
        lower_links,
        lower_values,
        leaf_values,
    );
    give(grid.value(Coordinate { x, y, z }), value)
}

// The same with the level that spoke, through `level`: 0 background, 1 root tile, 2 upper tile, 3 lower tile, 4 leaf.
pub fn smokegrid_get_reading(
    background: f32,
    blocks: &[i32],
    root_links: &[u32],
    root_values: &[f32],
    upper_links: &[u32],
    upper_values: &[f32],
    lower_links: &[u32],
    lower_values: &[f32],
    leaf_values: &[f32],
    x: i32,
    y: i32,
    z: i32,
    value: &mut f32,
    level: &mut u32,
) -> u32
    ensures { let g = grid_of background
        blocks.now root_links.now root_values.now upper_links.now
        upper_values.now lower_links.now lower_values.now leaf_values.now in
        GetsReading g (at x y z) result value.new level.new }
{
    let grid = grid(
        background,
        blocks,
        root_links,
        root_values,
        upper_links,
        upper_values,
        lower_links,
        lower_values,
        leaf_values,
    );
    give_reading(grid.reading(Coordinate { x, y, z }), value, level)
}

// Loads a temperature grid into the lent tables: 0, or the number of the refusal. Counts and background are written through their pointers.
pub fn smokegrid_load_temperature(
    bytes: &[u8],
    offset: f32,
    scale: f32,
    blocks: &mut [i32],
    root_links: &mut [u32],
    root_values: &mut [f32],
    upper_links: &mut [u32],
    upper_values: &mut [f32],
    lower_links: &mut [u32],
    lower_values: &mut [f32],
    leaf_values: &mut [f32],
    work: &mut [u64],
    counts: &mut [u64],
    background: &mut f32,
) -> u32
    ensures { let lent = lengths (tables
        blocks.old root_links.old root_values.old upper_links.old
        upper_values.old lower_links.old lower_values.old leaf_values.old
        work.old) in
        let left = tables
        blocks.new root_links.new root_values.new upper_links.new
        upper_values.new lower_links.new lower_values.new leaf_values.new
        work.new in
        LoadsTemperature bytes.now offset scale lent (length counts.old) result (record {
          tables = left;
          counts = counts.new;
          background = background.new;
        }) }
{
    let fits = counts.len() == 4;
    zero(counts);
    *background = 0.0f32;
    if !fits {
        nine::clear(
            blocks,
            root_links,
            root_values,
            upper_links,
            upper_values,
            lower_links,
            lower_values,
            leaf_values,
            work,
        );
        return Refusal::Tables.number();
    }
    match nine::load(
        bytes,
        offset,
        scale,
        blocks,
        root_links,
        root_values,
        upper_links,
        upper_values,
        lower_links,
        lower_values,
        leaf_values,
        work,
    ) {
        Ok(a) => {
            *background = a.background;
            put_counts(counts, a.roots, a.upper, a.lower, a.leaf);
            0
        }
        Err(refusal) => refusal.number(),
    }
}

// The bits of the temperature at a coordinate, through `value_bits`, and 0, also where `present` is 0 and there is no grid; or the number of the
// refusal, and 0 for the bits.
pub fn smokegrid_get_temperature(
    present: u32,
    background: f32,
    blocks: &[i32],
    root_links: &[u32],
    root_values: &[f32],
    upper_links: &[u32],
    upper_values: &[f32],
    lower_links: &[u32],
    lower_values: &[f32],
    leaf_values: &[f32],
    offset: f32,
    scale: f32,
    x: i32,
    y: i32,
    z: i32,
    value_bits: &mut u32,
) -> u32
    ensures { let g = grid_of background
        blocks.now root_links.now root_values.now upper_links.now
        upper_values.now lower_links.now lower_values.now leaf_values.now in
        GetsTemperature present g offset scale (at x y z) result value_bits.new }
{
    let grid = grid(
        background,
        blocks,
        root_links,
        root_values,
        upper_links,
        upper_values,
        lower_links,
        lower_values,
        leaf_values,
    );
    let t = Temperature {
        present: present != 0,
        offset,
        scale,
    };
    match heat_at(t, &grid, Coordinate { x, y, z }) {
        Ok(bits) => {
            *value_bits = bits;
            0
        }
        Err(refusal) => {
            *value_bits = 0;
            refusal.number()
        }
    }
}

// The greatest of +0.0 and the values of a box, ends included, through `value`, and 0; or the number of the refusal, and +0.0. The grid is validated first.
pub fn smokegrid_box_maximum(
    background: f32,
    blocks: &[i32],
    root_links: &[u32],
    root_values: &[f32],
    upper_links: &[u32],
    upper_values: &[f32],
    lower_links: &[u32],
    lower_values: &[f32],
    leaf_values: &[f32],
    lx: i32,
    ly: i32,
    lz: i32,
    hx: i32,
    hy: i32,
    hz: i32,
    value: &mut f32,
) -> u32
    ensures { let g = grid_of background
        blocks.now root_links.now root_values.now upper_links.now
        upper_values.now lower_links.now lower_values.now leaf_values.now in
        BoxMaximum g (between lx ly lz hx hy hz) result value.new }
{
    let grid = grid(
        background,
        blocks,
        root_links,
        root_values,
        upper_links,
        upper_values,
        lower_links,
        lower_values,
        leaf_values,
    );
    give(box_maximum(&grid, corners(lx, ly, lz, hx, hy, hz)), value)
}

// The box maximum, by the same walk, through `value`, what it read after `validate` into `counts` (root entries, upper entries, lower entries, and the
// high and the low word of the leaf values), and 0; or the number of the refusal, and zeros: 18 first, for counts of another length than five.
pub fn smokegrid_box_maximum_counted(
    background: f32,
    blocks: &[i32],
    root_links: &[u32],
    root_values: &[f32],
    upper_links: &[u32],
    upper_values: &[f32],
    lower_links: &[u32],
    lower_values: &[f32],
    leaf_values: &[f32],
    lx: i32,
    ly: i32,
    lz: i32,
    hx: i32,
    hy: i32,
    hz: i32,
    value: &mut f32,
    counts: &mut [u64],
) -> u32
    ensures { let g = grid_of background
        blocks.now root_links.now root_values.now upper_links.now
        upper_values.now lower_links.now lower_values.now leaf_values.now in
        CountsBox g (between lx ly lz hx hy hz) (length counts.old) result value.new counts.new }
{
    let fits = counts.len() == 5;
    *value = 0.0f32;
    zero(counts);
    if !fits {
        return Refusal::Tables.number();
    }
    let grid = grid(
        background,
        blocks,
        root_links,
        root_values,
        upper_links,
        upper_values,
        lower_links,
        lower_values,
        leaf_values,
    );
    match box_maximum_counted(&grid, corners(lx, ly, lz, hx, hy, hz)) {
        Ok(c) => {
            *value = c.maximum;
            put_read(counts, c);
            0
        }
        Err(refusal) => refusal.number(),
    }
}

// How many coordinates from the low corner to the high one lie in each class into `counts` (17, zero past the last class), and 0; or the number of the
// refusal, and zeros: 18 first, for counts of another length than 17.
pub fn smokegrid_count_classes(
    background: f32,
    blocks: &[i32],
    root_links: &[u32],
    root_values: &[f32],
    upper_links: &[u32],
    upper_values: &[f32],
    lower_links: &[u32],
    lower_values: &[f32],
    leaf_values: &[f32],
    limits: &[f32],
    lx: i32,
    ly: i32,
    lz: i32,
    hx: i32,
    hy: i32,
    hz: i32,
    counts: &mut [u64],
) -> u32
    ensures { let g = grid_of background
        blocks.now root_links.now root_values.now upper_links.now
        upper_values.now lower_links.now lower_values.now leaf_values.now in
        CountsClasses g limits.now (between lx ly lz hx hy hz) (length counts.old) result counts.new }
{
    let fits = counts.len() == 17;
    zero(counts);
    if !fits {
        return Refusal::Tables.number();
    }
    let grid = grid(
        background,
        blocks,
        root_links,
        root_values,
        upper_links,
        upper_values,
        lower_links,
        lower_values,
        leaf_values,
    );
    match count_classes(&grid, limits, corners(lx, ly, lz, hx, hy, hz)) {
        Ok(c) => {
            counts.copy_from_slice(&c);
            0
        }
        Err(refusal) => refusal.number(),
    }
}

// The greatest of +0.0 and the values of each box of a list (six numbers a box, minima first) into `maxima`, the greatest of the list through `greatest`,
// and 0; or the number of the refusal, and zeros. The grid is validated once.
pub fn smokegrid_box_maxima(
    background: f32,
    blocks: &[i32],
    root_links: &[u32],
    root_values: &[f32],
    upper_links: &[u32],
    upper_values: &[f32],
    lower_links: &[u32],
    lower_values: &[f32],
    leaf_values: &[f32],
    boxes: &[i32],
    maxima: &mut [f32],
    greatest: &mut f32,
) -> u32
    ensures { let g = grid_of background
        blocks.now root_links.now root_values.now upper_links.now
        upper_values.now lower_links.now lower_values.now leaf_values.now in
        BoxMaxima g boxes.now (length maxima.old) result maxima.new greatest.new }
{
    let grid = grid(
        background,
        blocks,
        root_links,
        root_values,
        upper_links,
        upper_values,
        lower_links,
        lower_values,
        leaf_values,
    );
    give(box_maxima(&grid, boxes, maxima), greatest)
}

// The index position of a world point, as the bits of three floats, and 0; or the number of the refusal, and zeros.
pub fn smokegrid_world_to_index_f(
    medium: &[f32],
    x: f32,
    y: f32,
    z: f32,
    index_bits: &mut [u32],
) -> u32
    ensures { WorldToIndex medium.now (record { x = x; y = y; z = z }) (length index_bits.old)
        result index_bits.new }
{
    let fits = are_long(medium.len(), 18, index_bits.len(), 3);
    zero(index_bits);
    if !fits {
        return Refusal::Tables.number();
    }
    match index_position(medium_from(medium, &[0; 6], &[0; 3]), [x, y, z]) {
        Ok(bits) => {
            index_bits.copy_from_slice(&bits);
            0
        }
        Err(refusal) => refusal.number(),
    }
}

// The density at a world point, mixed from the eight voxels around it, through `value`, and 0; or the number of the refusal, and +0.0.
pub fn smokegrid_mix(
    background: f32,
    blocks: &[i32],
    root_links: &[u32],
    root_values: &[f32],
    upper_links: &[u32],
    upper_values: &[f32],
    lower_links: &[u32],
    lower_values: &[f32],
    leaf_values: &[f32],
    medium: &[f32],
    x: f32,
    y: f32,
    z: f32,
    value: &mut f32,
) -> u32
    ensures { let g = grid_of background
        blocks.now root_links.now root_values.now upper_links.now
        upper_values.now lower_links.now lower_values.now leaf_values.now in
        MixesAt g medium.now (record { x = x; y = y; z = z }) result value.new }
{
    if medium.len() != 18 {
        return give(Err(Refusal::Tables), value);
    }
    let grid = grid(
        background,
        blocks,
        root_links,
        root_values,
        upper_links,
        upper_values,
        lower_links,
        lower_values,
        leaf_values,
    );
    let m = medium_from(medium, &[0; 6], &[0; 3]);
    give(density_at(&grid, &m, [x, y, z]), value)
}

// The figures of the cells, and 0; or the number of the refusal, and a table of zeros.
pub fn smokegrid_build_majorant(
    background: f32,
    blocks: &[i32],
    root_links: &[u32],
    root_values: &[f32],
    upper_links: &[u32],
    upper_values: &[f32],
    lower_links: &[u32],
    lower_values: &[f32],
    leaf_values: &[f32],
    medium: &[f32],
    corners: &[i32],
    cells: &[u32],
    majorants: &mut [f32],
) -> u32
    ensures { let g = grid_of background
        blocks.now root_links.now root_values.now upper_links.now
        upper_values.now lower_links.now lower_values.now leaf_values.now in
        Builds g medium.now corners.now cells.now (length majorants.old) result majorants.new }
{
    if !are_medium(medium, corners, cells) {
        zero(majorants);
        return Refusal::Tables.number();
    }
    let grid = grid(
        background,
        blocks,
        root_links,
        root_values,
        upper_links,
        upper_values,
        lower_links,
        lower_values,
        leaf_values,
    );
    fault(build_majorant(&grid, &medium_from(medium, corners, cells), majorants))
}

// A part as C takes it: where it starts and how many bytes it has, zeros after a refusal, and the number.
fn give_part(found: Result<Span, Refusal>, start: &mut u64, length: &mut u64) -> u32
    ensures { GivesPart (span_said found) result start.new length.new }
{
    match found {
        Ok(span) => {
            *start = span.start as u64;
            *length = span.length as u64;
            0
        }
        Err(refusal) => {
            *start = 0;
            *length = 0;
            refusal.number()
        }
    }
}

// The part of a file that holds grid n, counted from 0 through all segments, through `start` and `length`, and 0; or the number of the refusal, and zeros.
pub fn smokegrid_grid_part(file: &[u8], n: u64, start: &mut u64, length: &mut u64) -> u32
    ensures { GivesPart (pick file.now n) result start.new length.new }
{
    give_part(grid_span(file, n as usize), start, length)
}

// The part that holds the name of grid n.
pub fn smokegrid_grid_name(file: &[u8], n: u64, start: &mut u64, length: &mut u64) -> u32
    ensures { GivesPart (pick_name file.now n) result start.new length.new }
{
    give_part(name_span(file, n as usize), start, length)
}

// A ray from a point in a direction through a table, opened into its state, and 0; or the number of the refusal, and a state of zeros.
pub fn smokegrid_ray_open(
    medium: &[f32],
    cells: &[u32],
    majorants: &[f32],
    ox: f32,
    oy: f32,
    oz: f32,
    dx: f32,
    dy: f32,
    dz: f32,
    t_min: f32,
    t_max: f32,
    ray_times: &mut [f32],
    ray_cells: &mut [i32],
) -> u32
    ensures { OpensRay medium.now cells.now (beam ox oy oz dx dy dz t_min t_max) (length majorants.now)
        (length ray_times.old) (length ray_cells.old)
        result ray_times.new ray_cells.new }
{
    let fits = can_open(medium, cells, ray_times, ray_cells);
    zero(ray_times);
    zero(ray_cells);
    if !fits {
        return Refusal::Tables.number();
    }
    let m = medium_from(medium, &[0; 6], cells);
    let beam = Beam {
        origin: [ox, oy, oz],
        direction: [dx, dy, dz],
        t_min,
        t_max,
    };
    match Ray::open(m, beam, majorants) {
        Ok(ray) => {
            put_times(ray_times, ray);
            put_numbers(ray_cells, ray);
            0
        }
        Err(refusal) => refusal.number(),
    }
}

// The next piece of a ray: `more` is 1, and the piece and the figure of its cell stand behind the other pointers; or 0 and zeros at the ray's end. The
// state is written anew; after a refusal it is zeros, and all else too.
pub fn smokegrid_ray_next(
    majorants: &[f32],
    ray_times: &mut [f32],
    ray_cells: &mut [i32],
    more: &mut u32,
    t0: &mut f32,
    t1: &mut f32,
    figure: &mut f32,
) -> u32
    ensures { NextPiece majorants.now ray_times.old ray_cells.old result (record {
      times = ray_times.new;
      numbers = ray_cells.new;
      more = more.new;
      t0 = t0.new;
      t1 = t1.new;
      figure = figure.new;
    }) }
{
    *more = 0;
    *t0 = 0.0;
    *t1 = 0.0;
    *figure = 0.0;
    if !is_ray(ray_times, ray_cells) {
        zero(ray_times);
        zero(ray_cells);
        return Refusal::Tables.number();
    }
    let ray = ray_from(ray_times, ray_cells);
    match ray.next_piece(majorants) {
        Ok(Some((piece, after))) => {
            put_times(ray_times, after);
            put_numbers(ray_cells, after);
            *more = 1;
            *t0 = piece.from;
            *t1 = piece.to;
            *figure = piece.figure;
            0
        }
        Ok(None) => {
            put_times(ray_times, ray);
            put_numbers(ray_cells, ray);
            0
        }
        Err(refusal) => {
            zero(ray_times);
            zero(ray_cells);
            refusal.number()
        }
    }
}

// A layer of a table of cells as text, its length, and 0; or the number of the refusal, and zeros.
pub fn smokegrid_print_layer(
    majorants: &[f32],
    cells: &[u32],
    layer: u32,
    text: &mut [u8],
    written: &mut u64,
) -> u32
    ensures { PrintsLayer majorants.now cells.now layer (length text.old)
        result text.new written.new }
{
    *written = 0;
    if cells.len() != 3 {
        zero(text);
        return Refusal::Tables.number();
    }
    match write_layer(majorants, cells_from(cells), layer, text) {
        Ok(length) => {
            *written = length as u64;
            0
        }
        Err(refusal) => refusal.number(),
    }
}

// A window that holds no table yet, with memory and answer zeroed, and 0; or the number of the refusal, and zeros in all three.
pub fn smokegrid_window_open(
    w: u32,
    cells: &[u32],
    window: &mut [u32],
    memory: &mut [f32],
    answer: &mut [f32],
) -> u32
    ensures { OpensWindow w cells.now (length window.old) (length memory.old) (length answer.old)
        result (window_arrays window.new memory.new answer.new) }
{
    let fits = are_long(cells.len(), 3, window.len(), 6);
    zero(window);
    if !fits {
        zero(memory);
        zero(answer);
        return Refusal::Tables.number();
    }
    match Window::open(w, cells_from(cells), memory, answer) {
        Ok(opened) => {
            put_window(window, opened);
            0
        }
        Err(refusal) => refusal.number(),
    }
}

// One table more, the answer of the tables that are held, and 0; or the number of the refusal, and everything as it was.
pub fn smokegrid_window_push(
    majorants: &[f32],
    cells: &[u32],
    window: &mut [u32],
    memory: &mut [f32],
    answer: &mut [f32],
) -> u32
    ensures { PushesTable cells.now majorants.now (window_arrays window.old memory.old answer.old)
        result (window_arrays window.new memory.new answer.new) }
{
    if !are_long(cells.len(), 3, window.len(), 6) {
        return Refusal::Tables.number();
    }
    let mut held = window_from(window);
    match held.push(cells_from(cells), majorants, memory, answer) {
        Ok(()) => {
            put_window(window, held);
            0
        }
        Err(refusal) => refusal.number(),
    }
}
