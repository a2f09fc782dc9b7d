// The C interface (include/smokegrid.h): each function of the library `smokegrid`, with its promise, under the same name for C. A slice passes as a
// pointer and a length, a `&mut f32` as a pointer; each function may be called with anything.
// Numbers, flat arrays and slices, as in `smokegrid`, since the header is fixed. Each function stands a second time because a crate is a library or a
// static library, and the claim is about the library.
#![tactic(auto)]

ghost use Rattle.std.specs.Prelude.{◌≡◌, length};
ghost use Rattle.sparse_grid.specs.Tables.{grid_of};
ghost use Rattle.sparse_grid.specs.Validate.{validate as validate_s, validate_density};
ghost use Rattle.sparse_grid.specs.Answers.{at};
ghost use Rattle.nanovdb.specs.Lent.{tables, lengths};
ghost use Rattle.boxes.specs.Boxes.{between};
ghost use Rattle.contents.specs.Contents.{pick, pick_name};
ghost use Rattle.smokegrid.specs.Flat.{Arrays};
ghost use Rattle.smokegrid.specs.FlatRay.{beam};
ghost use Rattle.smokegrid.specs.FlatTables.{window_arrays};
ghost use Rattle.smokegrid.specs.Promises.{Decodes, GetsValue, GetsReading, BoxMaximum, BoxMaxima, WorldToIndex, MixesAt, Builds, GivesPart};
ghost use Rattle.smokegrid.specs.Promises.{CountsBox, CountsClasses, LoadsTemperature, GetsTemperature};
ghost use Rattle.smokegrid.specs.Promises.{OpensRay, NextPiece, PrintsLayer, OpensWindow, PushesTable};

// Decodes a density grid into the lent tables: 0, or the number of the refusal. Counts, background, medium and corners are written through their pointers.
#[unsafe(no_mangle)]
pub extern "C" fn smokegrid_decode_density_grid(
    bytes: &[u8],
    blocks: &mut [i32],
    root_links: &mut [u32],
    root_values: &mut [f32],
    upper_links: &mut [u32],
    upper_values: &mut [f32],
    lower_links: &mut [u32],
    lower_values: &mut [f32],
    leaf_values: &mut [f32],
    work: &mut [u64],
    counts: &mut [u64],
    background: &mut f32,
    medium: &mut [f32],
    corners: &mut [i32],
    cells: &mut [u32],
) -> u32
    ensures { let lent = lengths (tables
        blocks.old root_links.old root_values.old upper_links.old
        upper_values.old lower_links.old lower_values.old leaf_values.old
        work.old) in
        let left = tables
        blocks.new root_links.new root_values.new upper_links.new
        upper_values.new lower_links.new lower_values.new leaf_values.new
        work.new in
        let arrays : Arrays = record {
          counts = length counts.old;
          medium = length medium.old;
          corners = length corners.old;
          cells = length cells.old;
        } in
        Decodes bytes.now lent arrays result (record {
          tables = left;
          counts = counts.new;
          background = background.new;
          medium = medium.new;
          corners = corners.new;
          cells = cells.new;
        }) }
{
    smokegrid::smokegrid_decode_density_grid(
        bytes,
        blocks,
        root_links,
        root_values,
        upper_links,
        upper_values,
        lower_links,
        lower_values,
        leaf_values,
        work,
        counts,
        background,
        medium,
        corners,
        cells,
    )
}

// The number of the first fault, and 0 for none.
#[unsafe(no_mangle)]
pub extern "C" fn smokegrid_validate(
    background: f32,
    blocks: &[i32],
    root_links: &[u32],
    root_values: &[f32],
    upper_links: &[u32],
    upper_values: &[f32],
    lower_links: &[u32],
    lower_values: &[f32],
    leaf_values: &[f32],
) -> u32
    ensures { let g = grid_of background
        blocks.now root_links.now root_values.now upper_links.now
        upper_values.now lower_links.now lower_values.now leaf_values.now in
        result ≡ validate_s g }
{
    smokegrid::smokegrid_validate(
        background,
        blocks,
        root_links,
        root_values,
        upper_links,
        upper_values,
        lower_links,
        lower_values,
        leaf_values,
    )
}

// `smokegrid_validate`, and then 15 for a value below zero.
#[unsafe(no_mangle)]
pub extern "C" fn smokegrid_validate_density(
    background: f32,
    blocks: &[i32],
    root_links: &[u32],
    root_values: &[f32],
    upper_links: &[u32],
    upper_values: &[f32],
    lower_links: &[u32],
    lower_values: &[f32],
    leaf_values: &[f32],
) -> u32
    ensures { let g = grid_of background
        blocks.now root_links.now root_values.now upper_links.now
        upper_values.now lower_links.now lower_values.now leaf_values.now in
        result ≡ validate_density g }
{
    smokegrid::smokegrid_validate_density(
        background,
        blocks,
        root_links,
        root_values,
        upper_links,
        upper_values,
        lower_links,
        lower_values,
        leaf_values,
    )
}

// The value at a coordinate, through `value`, and 0; or the number of the refusal, and +0.0 for the value.
#[unsafe(no_mangle)]
pub extern "C" fn smokegrid_get_value(
    background: f32,
    blocks: &[i32],
    root_links: &[u32],
    root_values: &[f32],
    upper_links: &[u32],
    upper_values: &[f32],
    lower_links: &[u32],
    lower_values: &[f32],
    leaf_values: &[f32],
    x: i32,
    y: i32,
    z: i32,
    value: &mut f32,
) -> u32
    ensures { let g = grid_of background
        blocks.now root_links.now root_values.now upper_links.now
        upper_values.now lower_links.now lower_values.now leaf_values.now in
        GetsValue g (at x y z) result value.new }
{
    smokegrid::smokegrid_get_value(
        background,
        blocks,
        root_links,
        root_values,
        upper_links,
        upper_values,
        lower_links,
        lower_values,
        leaf_values,
        x,
        y,
        z,
        value,
    )
}

// The same with the level that spoke, through `level`: 0 background, 1 root tile, 2 upper tile, 3 lower tile, 4 leaf.
#[unsafe(no_mangle)]
pub extern "C" fn smokegrid_get_reading(
    background: f32,
    blocks: &[i32],
    root_links: &[u32],
    root_values: &[f32],
    upper_links: &[u32],
    upper_values: &[f32],
    lower_links: &[u32],
    lower_values: &[f32],
    leaf_values: &[f32],
    x: i32,
    y: i32,
    z: i32,
    value: &mut f32,
    level: &mut u32,
) -> u32
    ensures { let g = grid_of background
        blocks.now root_links.now root_values.now upper_links.now
        upper_values.now lower_links.now lower_values.now leaf_values.now in
        GetsReading g (at x y z) result value.new level.new }
{
    smokegrid::smokegrid_get_reading(
        background,
        blocks,
        root_links,
        root_values,
        upper_links,
        upper_values,
        lower_links,
        lower_values,
        leaf_values,
        x,
        y,
        z,
        value,
        level,
    )
}

// Loads a temperature grid into the lent tables: 0, or the number of the refusal. Counts and background are written through their pointers.
#[unsafe(no_mangle)]
pub extern "C" fn smokegrid_load_temperature(
    bytes: &[u8],
    offset: f32,
    scale: f32,
    blocks: &mut [i32],
    root_links: &mut [u32],
    root_values: &mut [f32],
    upper_links: &mut [u32],
    upper_values: &mut [f32],
    lower_links: &mut [u32],
    lower_values: &mut [f32],
    leaf_values: &mut [f32],
    work: &mut [u64],
    counts: &mut [u64],
    background: &mut f32,
) -> u32
    ensures { let lent = lengths (tables
        blocks.old root_links.old root_values.old upper_links.old
        upper_values.old lower_links.old lower_values.old leaf_values.old
        work.old) in
        let left = tables
        blocks.new root_links.new root_values.new upper_links.new
        upper_values.new lower_links.new lower_values.new leaf_values.new
        work.new in
        LoadsTemperature bytes.now offset scale lent (length counts.old) result (record {
          tables = left;
          counts = counts.new;
          background = background.new;
        }) }
{
    smokegrid::smokegrid_load_temperature(
        bytes,
        offset,
        scale,
        blocks,
        root_links,
        root_values,
        upper_links,
        upper_values,
        lower_links,
        lower_values,
        leaf_values,
        work,
        counts,
        background,
    )
}

// The bits of the temperature at a coordinate, through `value_bits`, and 0, also where `present` is 0 and there is no grid; or the number of the
// refusal, and 0 for the bits.
#[unsafe(no_mangle)]
pub extern "C" fn smokegrid_get_temperature(
    present: u32,
    background: f32,
    blocks: &[i32],
    root_links: &[u32],
    root_values: &[f32],
    upper_links: &[u32],
    upper_values: &[f32],
    lower_links: &[u32],
    lower_values: &[f32],
    leaf_values: &[f32],
    offset: f32,
    scale: f32,
    x: i32,
    y: i32,
    z: i32,
    value_bits: &mut u32,
) -> u32
    ensures { let g = grid_of background
        blocks.now root_links.now root_values.now upper_links.now
        upper_values.now lower_links.now lower_values.now leaf_values.now in
        GetsTemperature present g offset scale (at x y z) result value_bits.new }
{
    smokegrid::smokegrid_get_temperature(
        present,
        background,
        blocks,
        root_links,
        root_values,
        upper_links,
        upper_values,
        lower_links,
        lower_values,
        leaf_values,
        offset,
        scale,
        x,
        y,
        z,
        value_bits,
    )
}

// The greatest of +0.0 and the values of a box, ends included, through `value`, and 0; or the number of the refusal, and +0.0. The grid is validated first.
#[unsafe(no_mangle)]
pub extern "C" fn smokegrid_box_maximum(
    background: f32,
    blocks: &[i32],
    root_links: &[u32],
    root_values: &[f32],
    upper_links: &[u32],
    upper_values: &[f32],
    lower_links: &[u32],
    lower_values: &[f32],
    leaf_values: &[f32],
    lx: i32,
    ly: i32,
    lz: i32,
    hx: i32,
    hy: i32,
    hz: i32,
    value: &mut f32,
) -> u32
    ensures { let g = grid_of background
        blocks.now root_links.now root_values.now upper_links.now
        upper_values.now lower_links.now lower_values.now leaf_values.now in
        BoxMaximum g (between lx ly lz hx hy hz) result value.new }
{
    smokegrid::smokegrid_box_maximum(
        background,
        blocks,
        root_links,
        root_values,
        upper_links,
        upper_values,
        lower_links,
        lower_values,
        leaf_values,
        lx,
        ly,
        lz,
        hx,
        hy,
        hz,
        value,
    )
}

// The box maximum, by the same walk, through `value`, what it read after `validate` into `counts` (root entries, upper entries, lower entries, and the
// high and the low word of the leaf values), and 0; or the number of the refusal, and zeros: 18 first, for counts of another length than five.
#[unsafe(no_mangle)]
pub extern "C" fn smokegrid_box_maximum_counted(
    background: f32,
    blocks: &[i32],
    root_links: &[u32],
    root_values: &[f32],
    upper_links: &[u32],
    upper_values: &[f32],
    lower_links: &[u32],
    lower_values: &[f32],
    leaf_values: &[f32],
    lx: i32,
    ly: i32,
    lz: i32,
    hx: i32,
    hy: i32,
    hz: i32,
    value: &mut f32,
    counts: &mut [u64],
) -> u32
    ensures { let g = grid_of background
        blocks.now root_links.now root_values.now upper_links.now
        upper_values.now lower_links.now lower_values.now leaf_values.now in
        CountsBox g (between lx ly lz hx hy hz) (length counts.old) result value.new counts.new }
{
    smokegrid::smokegrid_box_maximum_counted(
        background,
        blocks,
        root_links,
        root_values,
        upper_links,
        upper_values,
        lower_links,
        lower_values,
        leaf_values,
        lx,
        ly,
        lz,
        hx,
        hy,
        hz,
        value,
        counts,
    )
}

// How many coordinates from the low corner to the high one lie in each class into `counts` (17, zero past the last class), and 0; or the number of the
// refusal, and zeros: 18 first, for counts of another length than 17.
#[unsafe(no_mangle)]
pub extern "C" fn smokegrid_count_classes(
    background: f32,
    blocks: &[i32],
    root_links: &[u32],
    root_values: &[f32],
    upper_links: &[u32],
    upper_values: &[f32],
    lower_links: &[u32],
    lower_values: &[f32],
    leaf_values: &[f32],
    limits: &[f32],
    lx: i32,
    ly: i32,
    lz: i32,
    hx: i32,
    hy: i32,
    hz: i32,
    counts: &mut [u64],
) -> u32
    ensures { let g = grid_of background
        blocks.now root_links.now root_values.now upper_links.now
        upper_values.now lower_links.now lower_values.now leaf_values.now in
        CountsClasses g limits.now (between lx ly lz hx hy hz) (length counts.old) result counts.new }
{
    smokegrid::smokegrid_count_classes(
        background,
        blocks,
        root_links,
        root_values,
        upper_links,
        upper_values,
        lower_links,
        lower_values,
        leaf_values,
        limits,
        lx,
        ly,
        lz,
        hx,
        hy,
        hz,
        counts,
    )
}

// The greatest of +0.0 and the values of each box of a list (six numbers a box, minima first) into `maxima`, the greatest of the list through `greatest`,
// and 0; or the number of the refusal, and zeros. The grid is validated once.
#[unsafe(no_mangle)]
pub extern "C" fn smokegrid_box_maxima(
    background: f32,
    blocks: &[i32],
    root_links: &[u32],
    root_values: &[f32],
    upper_links: &[u32],
    upper_values: &[f32],
    lower_links: &[u32],
    lower_values: &[f32],
    leaf_values: &[f32],
    boxes: &[i32],
    maxima: &mut [f32],
    greatest: &mut f32,
) -> u32
    ensures { let g = grid_of background
        blocks.now root_links.now root_values.now upper_links.now
        upper_values.now lower_links.now lower_values.now leaf_values.now in
        BoxMaxima g boxes.now (length maxima.old) result maxima.new greatest.new }
{
    smokegrid::smokegrid_box_maxima(
        background,
        blocks,
        root_links,
        root_values,
        upper_links,
        upper_values,
        lower_links,
        lower_values,
        leaf_values,
        boxes,
        maxima,
        greatest,
    )
}

// The index position of a world point, as the bits of three floats, and 0; or the number of the refusal, and zeros.
#[unsafe(no_mangle)]
pub extern "C" fn smokegrid_world_to_index_f(
    medium: &[f32],
    x: f32,
    y: f32,
    z: f32,
    index_bits: &mut [u32],
) -> u32
    ensures { WorldToIndex medium.now (record { x = x; y = y; z = z }) (length index_bits.old)
        result index_bits.new }
{
    smokegrid::smokegrid_world_to_index_f(medium, x, y, z, index_bits)
}

// The density at a world point, mixed from the eight voxels around it, through `value`, and 0; or the number of the refusal, and +0.0.
#[unsafe(no_mangle)]
pub extern "C" fn smokegrid_mix(
    background: f32,
    blocks: &[i32],
    root_links: &[u32],
    root_values: &[f32],
    upper_links: &[u32],
    upper_values: &[f32],
    lower_links: &[u32],
    lower_values: &[f32],
    leaf_values: &[f32],
    medium: &[f32],
    x: f32,
    y: f32,
    z: f32,
    value: &mut f32,
) -> u32
    ensures { let g = grid_of background
        blocks.now root_links.now root_values.now upper_links.now
        upper_values.now lower_links.now lower_values.now leaf_values.now in
        MixesAt g medium.now (record { x = x; y = y; z = z }) result value.new }
{
    smokegrid::smokegrid_mix(
        background,
        blocks,
        root_links,
        root_values,
        upper_links,
        upper_values,
        lower_links,
        lower_values,
        leaf_values,
        medium,
        x,
        y,
        z,
        value,
    )
}

// The figures of the cells, and 0; or the number of the refusal, and a table of zeros.
#[unsafe(no_mangle)]
pub extern "C" fn smokegrid_build_majorant(
    background: f32,
    blocks: &[i32],
    root_links: &[u32],
    root_values: &[f32],
    upper_links: &[u32],
    upper_values: &[f32],
    lower_links: &[u32],
    lower_values: &[f32],
    leaf_values: &[f32],
    medium: &[f32],
    corners: &[i32],
    cells: &[u32],
    majorants: &mut [f32],
) -> u32
    ensures { let g = grid_of background
        blocks.now root_links.now root_values.now upper_links.now
        upper_values.now lower_links.now lower_values.now leaf_values.now in
        Builds g medium.now corners.now cells.now (length majorants.old) result majorants.new }
{
    smokegrid::smokegrid_build_majorant(
        background,
        blocks,
        root_links,
        root_values,
        upper_links,
        upper_values,
        lower_links,
        lower_values,
        leaf_values,
        medium,
        corners,
        cells,
        majorants,
    )
}

// The part of a file that holds grid n, counted from 0 through all segments, through `start` and `length`, and 0; or the number of the refusal, and zeros.
#[unsafe(no_mangle)]
pub extern "C" fn smokegrid_grid_part(file: &[u8], n: u64, start: &mut u64, length: &mut u64) -> u32
    ensures { GivesPart (pick file.now n) result start.new length.new }
{
    smokegrid::smokegrid_grid_part(file, n, start, length)
}

// The part that holds the name of grid n.
#[unsafe(no_mangle)]
pub extern "C" fn smokegrid_grid_name(file: &[u8], n: u64, start: &mut u64, length: &mut u64) -> u32
    ensures { GivesPart (pick_name file.now n) result start.new length.new }
{
    smokegrid::smokegrid_grid_name(file, n, start, length)
}

// A ray from a point in a direction through a table, opened into its state, and 0; or the number of the refusal, and a state of zeros.
#[unsafe(no_mangle)]
pub extern "C" fn smokegrid_ray_open(
    medium: &[f32],
    cells: &[u32],
    majorants: &[f32],
    ox: f32,
    oy: f32,
    oz: f32,
    dx: f32,
    dy: f32,
    dz: f32,
    t_min: f32,
    t_max: f32,
    ray_times: &mut [f32],
    ray_cells: &mut [i32],
) -> u32
    ensures { OpensRay medium.now cells.now (beam ox oy oz dx dy dz t_min t_max) (length majorants.now)
        (length ray_times.old) (length ray_cells.old)
        result ray_times.new ray_cells.new }
{
    smokegrid::smokegrid_ray_open(
        medium, cells, majorants, ox, oy, oz, dx, dy, dz, t_min, t_max, ray_times, ray_cells,
    )
}

// The next piece of a ray: `more` is 1, and the piece and the figure of its cell stand behind the other pointers; or 0 and zeros at the ray's end. The
// state is written anew; after a refusal it is zeros, and all else too.
#[unsafe(no_mangle)]
pub extern "C" fn smokegrid_ray_next(
    majorants: &[f32],
    ray_times: &mut [f32],
    ray_cells: &mut [i32],
    more: &mut u32,
    t0: &mut f32,
    t1: &mut f32,
    figure: &mut f32,
) -> u32
    ensures { NextPiece majorants.now ray_times.old ray_cells.old result (record {
      times = ray_times.new;
      numbers = ray_cells.new;
      more = more.new;
      t0 = t0.new;
      t1 = t1.new;
      figure = figure.new;
    }) }
{
    smokegrid::smokegrid_ray_next(majorants, ray_times, ray_cells, more, t0, t1, figure)
}

// A layer of a table of cells as text, its length, and 0; or the number of the refusal, and zeros.
#[unsafe(no_mangle)]
pub extern "C" fn smokegrid_print_layer(
    majorants: &[f32],
    cells: &[u32],
    layer: u32,
    text: &mut [u8],
    written: &mut u64,
) -> u32
    ensures { PrintsLayer majorants.now cells.now layer (length text.old)
        result text.new written.new }
{
    smokegrid::smokegrid_print_layer(majorants, cells, layer, text, written)
}

// A window that holds no table yet, with memory and answer zeroed, and 0; or the number of the refusal, and zeros in all three.
#[unsafe(no_mangle)]
pub extern "C" fn smokegrid_window_open(
    w: u32,
    cells: &[u32],
    window: &mut [u32],
    memory: &mut [f32],
    answer: &mut [f32],
) -> u32
    ensures { OpensWindow w cells.now (length window.old) (length memory.old) (length answer.old)
        result (window_arrays window.new memory.new answer.new) }
{
    smokegrid::smokegrid_window_open(w, cells, window, memory, answer)
}

// One table more, the answer of the tables that are held, and 0; or the number of the refusal, and everything as it was.
#[unsafe(no_mangle)]
pub extern "C" fn smokegrid_window_push(
    majorants: &[f32],
    cells: &[u32],
    window: &mut [u32],
    memory: &mut [f32],
    answer: &mut [f32],
) -> u32
    ensures { PushesTable cells.now majorants.now (window_arrays window.old memory.old answer.old)
        result (window_arrays window.new memory.new answer.new) }
{
    smokegrid::smokegrid_window_push(majorants, cells, window, memory, answer)
}
