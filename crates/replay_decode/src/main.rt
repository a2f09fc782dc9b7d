// Replays grids, whole and damaged, with what the Rust's decode answers and leaves in the tables, what its build of them answers,
// and what both answer to a question, and says how many cases there were, how many differ, how many were asked about a place with
// smoke, and of how many the build was refused and the grid answered. `oracle list decode` (tests/oracle) makes the list, which is read from standard input.
//
// Everything is little-endian words of 32 bits. First the number of cases. A case is
//     the length of the bytes; how many of them are not 0; those, each its place and its value;
//     the number; how many roots, upper, lower and leaf nodes; the background; the medium, 18 words; the corners, 6 words;
//     the words of each table that are not 0, each its place and its value, ended by the place ffffffff;
//     the number of the build of the used parts; how many figures are listed; those, each its cell and its value;
//     the question: a coordinate, the low and the high corner of a box of voxels, and a point, 12 words; the answer due: the numbers
//     of the decode and of the build (the decode's where that is refused), the voxel and the maximum, zeros after a refused decode,
//     and the cell and its figure, zeros after a refused build.
#![tactic(auto)]

ghost use Rattle.std.specs.Prelude.{◌≤◌, IfOk};

use boxes::CoordBox;
use cells::Cells;
use claim::{Asked, Question};
use decode::{Decoded, Tables, decode_density_grid};
use layout::Coordinate;
use majorant::build_majorant;
use medium::Medium;
use refusals::{Refusal, fault};
use replay::{Placed, Word, fill, first, read_cases, read_placed, read_word, report};
use sparse_grid::Grid;
use std::io;
use std::io::Read;

// ---- what the answer says

// What a word of the list may be due for. A float is compared by its bits, as a NaN is not equal to itself.
trait Listed: Copy {
    fn is(self, word: u32) -> bool;
}

impl Listed for u32 {
    fn is(self, word: u32) -> bool {
        self == word
    }
}

impl Listed for i32 {
    fn is(self, word: u32) -> bool {
        self.cast_unsigned() == word
    }
}

impl Listed for usize {
    fn is(self, word: u32) -> bool {
        self == word as usize
    }
}

impl Listed for f32 {
    fn is(self, word: u32) -> bool {
        float::bits_of(self) == word
    }
}

fn same<T: Listed, R: Read>(list: &mut R, a: T) -> io::Result<bool> {
    Ok(a.is(read_word(list)?))
}

fn same_row<T: Listed, R: Read>(list: &mut R, row: &[T]) -> io::Result<bool> {
    let mut all = true;
    for x in row {
        all &= same(list, *x)?;
    }
    Ok(all)
}

// Each record is compared word by word as it is read: a derived equality would compare floats by value.
fn same_medium<R: Read>(list: &mut R, m: Medium) -> io::Result<bool> {
    let world = same_row(list, &m.low)? & same_row(list, &m.high)?;
    let map = same_row(list, &m.map)? & same_row(list, &m.translation)?;
    let index = same_row(list, &m.index_low)? & same_row(list, &m.index_high)?;
    Ok(world & map & index)
}

// What a refused decode is listed with: no roots, no nodes, and a medium of zeros.
fn nothing() -> Decoded {
    let point = [0.0f32; 3];
    let corner = [0i32; 3];
    Decoded {
        roots: 0,
        upper: 0,
        lower: 0,
        leaf: 0,
        background: 0.0,
        medium: medium::make_medium(point, point, corner, corner, [0.0f32; 9], point, [0u32; 3]),
    }
}

fn same_answer<R: Read>(list: &mut R, number: u32, d: Decoded) -> io::Result<bool> {
    let number = same(list, number)?;
    let roots = same(list, d.roots)?;
    let upper = same(list, d.upper)?;
    let lower = same(list, d.lower)?;
    let leaf = same(list, d.leaf)?;
    let background = same(list, d.background)?;
    let medium = same_medium(list, d.medium)?;
    Ok(number & roots & upper & lower & leaf & background & medium)
}

// What is left in a table, word for word: the words that are not 0 are listed, each with its place.
fn same_table<T: Listed, R: Read>(list: &mut R, table: &[T]) -> io::Result<bool> {
    let mut same = true;
    let mut next: Placed<u32> = read_placed(list)?;
    for (i, x) in table.iter().enumerate() {
        if i == next.at {
            same &= x.is(next.value);
            next = read_placed(list)?;
        } else {
            same &= x.is(0);
        }
    }
    Ok(same)
}

// The work table is left with zeros.
fn cleared(work: &[u64]) -> bool {
    work.iter().all(|x| *x == 0)
}

// ---- the build

// The listed figures.
fn same_figures<R: Read>(list: &mut R, majorants: &[f32]) -> io::Result<bool> {
    let mut same = true;
    let n: u32 = read_word(list)?;
    for _ in 0..n {
        let figure: Placed<u32> = read_placed(list)?;
        same &= match majorants.get(figure.at) {
            Some(x) => x.is(figure.value),
            None => false,
        };
    }
    Ok(same)
}

// Builds the used parts, and says whether the number and the listed figures are the Rust's.
fn same_build<R: Read>(list: &mut R, grid: &Grid, m: &Medium) -> io::Result<bool> {
    let mut majorants = [0.0f32; 262144];
    let number = fault(build_majorant(grid, m, &mut majorants));
    let answer = same(list, number)?;
    Ok(answer & same_figures(list, &majorants)?)
}

// ---- the question

fn read_coordinate<R: Read>(list: &mut R) -> io::Result<Coordinate> {
    let x = read_word(list)?;
    let y = read_word(list)?;
    let z = read_word(list)?;
    Ok(Coordinate { x, y, z })
}

fn read_question<R: Read>(list: &mut R) -> io::Result<Question> {
    let coordinate = read_coordinate(list)?;
    let lo = read_coordinate(list)?;
    let hi = read_coordinate(list)?;
    let x = read_word(list)?;
    let y = read_word(list)?;
    let z = read_word(list)?;
    Ok(Question {
        coordinate,
        of: CoordBox { lo, hi },
        point: [x, y, z],
    })
}

// The cell and the figure that are listed: the number of cells and 0 where no cell encloses the point, zeros after a refused build.
fn listed_cell(a: Asked) -> (usize, f32) {
    match (a.found, a.loaded.build) {
        (Some(found), _) => (found.cell as usize, found.figure),
        (None, Ok(())) => {
            let [x, y, z] = a.loaded.decoded.medium.cells;
            (Cells { x, y, z }.table_length(), 0.0)
        }
        (None, Err(_)) => (0, 0.0),
    }
}

fn same_asked<R: Read>(list: &mut R, a: Asked) -> io::Result<bool> {
    let number = same(list, 0u32)?;
    let build = same(list, fault(a.loaded.build))?;
    let value = same(list, a.value)?;
    let maximum = same(list, a.maximum)?;
    let (cell, figure) = listed_cell(a);
    let cell = same(list, cell)?;
    let figure = same(list, figure)?;
    Ok(number & build & value & maximum & cell & figure)
}

// After a refused decode its number, as that of the build too, and zeros.
fn same_refusal<R: Read>(list: &mut R, number: u32) -> io::Result<bool> {
    same_row(list, &[number, number, 0, 0, 0, 0])
}

// Whether the answer is as listed, and whether it tells of smoke beside a build that was accepted, and beside one that was refused.
#[derive(Clone, Copy)]
struct Told {
    same: bool,
    smoke: bool,
    unbuilt: bool,
}

fn compare<R: Read>(list: &mut R, answer: Result<Asked, Refusal>) -> io::Result<Told> {
    match answer {
        Ok(a) => {
            let given = a.loaded.build.is_ok();
            let smoke = a.maximum > 0.0;
            Ok(Told {
                same: same_asked(list, a)?,
                smoke: given && smoke,
                unbuilt: !given && smoke,
            })
        }
        Err(refusal) => Ok(Told {
            same: same_refusal(list, refusal.number())?,
            smoke: false,
            unbuilt: false,
        }),
    }
}

// Decodes and builds once more, into fresh tables, for the answer.
fn replay_question<R: Read>(list: &mut R, bytes: &[u8]) -> io::Result<Told> {
    let mut blocks = [0i32; 24];
    let mut root_links = [0u32; 8];
    let mut root_values = [0.0f32; 8];
    let mut upper_links = [0u32; 65536];
    let mut upper_values = [0.0f32; 65536];
    let mut lower_links = [0u32; 8192];
    let mut lower_values = [0.0f32; 8192];
    let mut leaf_values = [0.0f32; 4096];
    let mut work = [0u64; 64];
    let mut majorants = [0.0f32; 262144];
    let question = read_question(list)?;
    let mut tables = Tables {
        blocks: &mut blocks,
        root_links: &mut root_links,
        root_values: &mut root_values,
        upper_links: &mut upper_links,
        upper_values: &mut upper_values,
        lower_links: &mut lower_links,
        lower_values: &mut lower_values,
        leaf_values: &mut leaf_values,
        work: &mut work,
    };
    let answer = claim::ask(bytes, &mut tables, &mut majorants, question);
    compare(list, answer)
}

// ---- a case

// Whether every table is left as listed, and the work table empty.
fn same_tables<R: Read>(list: &mut R, t: &Tables<'_>) -> io::Result<bool> {
    let roots = same_table(list, t.blocks)?;
    let links = same_table(list, t.root_links)?;
    let values = same_table(list, t.root_values)?;
    let upper = same_table(list, t.upper_links)?;
    let above = same_table(list, t.upper_values)?;
    let lower = same_table(list, t.lower_links)?;
    let below = same_table(list, t.lower_values)?;
    let leaf = same_table(list, t.leaf_values)?;
    Ok(roots & links & values & upper & above & lower & below & leaf & cleared(t.work))
}

// Decodes the bytes and builds the grid, and says whether the answers, every table and the figures are as listed.
fn same_grid<R: Read>(list: &mut R, bytes: &[u8], tables: &mut Tables<'_>) -> io::Result<bool> {
    let (number, d) = match decode_density_grid(bytes, tables) {
        Ok(d) => (0, d),
        Err(refusal) => (refusal.number(), nothing()),
    };
    let answer = same_answer(list, number, d)?;
    let left = same_tables(list, tables)?;
    Ok(answer & left & same_build(list, &tables.used(&d), &d.medium)?)
}

// The same into fresh tables.
fn replay_bytes<R: Read>(list: &mut R, bytes: &[u8]) -> io::Result<bool> {
    let mut blocks = [0i32; 24];
    let mut root_links = [0u32; 8];
    let mut root_values = [0.0f32; 8];
    let mut upper_links = [0u32; 65536];
    let mut upper_values = [0.0f32; 65536];
    let mut lower_links = [0u32; 8192];
    let mut lower_values = [0.0f32; 8192];
    let mut leaf_values = [0.0f32; 4096];
    let mut work = [0u64; 64];
    let mut tables = Tables {
        blocks: &mut blocks,
        root_links: &mut root_links,
        root_values: &mut root_values,
        upper_links: &mut upper_links,
        upper_values: &mut upper_values,
        lower_links: &mut lower_links,
        lower_values: &mut lower_values,
        leaf_values: &mut leaf_values,
        work: &mut work,
    };
    same_grid(list, bytes, &mut tables)
}

// 1 where a case differs, 1 where smoke was found, and 1 where it was found beside a refused build.
#[derive(Clone, Copy)]
struct Counted {
    differ: u32,
    smoky: u32,
    unbuilt: u32,
}

// Zeros for the bytes of a case.
fn empty_bytes() -> [u8; 655360] {
    [0; 655360]
}

fn replay<R: Read>(list: &mut R) -> io::Result<Counted>
    ensures { IfOk result (λ counted. (counted.differ ≤ 1) × (counted.smoky ≤ 1) × (counted.unbuilt ≤ 1)) }
{
    let mut bytes = empty_bytes();
    let length: u32 = read_word(list)?;
    let n: u32 = read_word(list)?;
    fill(list, n, &mut bytes)?;
    let grid = first(&bytes, length as usize);
    let same = replay_bytes(list, grid)?;
    let asked = replay_question(list, grid)?;
    Ok(Counted {
        differ: u32::from(!(same && asked.same)),
        smoky: u32::from(asked.smoke),
        unbuilt: u32::from(asked.unbuilt),
    })
}

// How many cases were replayed, and how many of them each count holds.
#[derive(Clone, Copy)]
struct Replayed {
    cases: u32,
    differ: u32,
    smoky: u32,
    unbuilt: u32,
}

fn replay_all<R: Read>(list: &mut R) -> io::Result<Replayed> {
    let cases = read_cases(list)?;
    let mut differ: u32 = 0;
    let mut smoky: u32 = 0;
    let mut unbuilt: u32 = 0;
    for _ in 0..cases {
        let counted = replay(list)?;
        differ += counted.differ;
        smoky += counted.smoky;
        unbuilt += counted.unbuilt;
    }
    Ok(Replayed {
        cases,
        differ,
        smoky,
        unbuilt,
    })
}

fn main(rt: HostRuntime) -> io::Result<()> {
    let list = &mut rt.reader();
    let all = replay_all(list)?;
    let out = &mut io::writer(&rt);
    report(out, all.cases, b" cases, ")?;
    report(out, all.differ, b" differ\n")?;
    report(
        out,
        all.smoky,
        b" with smoke in the eight voxels around the point that was asked about\n",
    )?;
    report(
        out,
        all.unbuilt,
        b" with smoke in the box that was asked about and a refused build\n",
    )
}
