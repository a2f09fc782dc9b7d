// Replays small tables, valid and damaged, with the answers of sparse_grid.rs on them, and says how many cases and
// lookups there were and how many answers differ. tests/vectors/grid.rs makes the list, which is read from standard
// input, and says what a case holds.
#![tactic(auto)]

ghost use Rattle.std.specs.Prelude.{◌≤◌, IfOk};

use layout::{Coordinate, Field};
use refusals::Refusal;
use replay::{fill, first, read_bytes, read_cases, report};
use sparse_grid::{Entries, Grid};
use std::io;
use std::io::Read;

// What the list has of a lookup: the pattern of its value, or the number of its refusal.
fn listed(b: &[u8]) -> Result<u32, u32> {
    let number = u32::at(b, 12);
    if number == 0 {
        Ok(u32::at(b, 16))
    } else {
        Err(number)
    }
}

// Reads a lookup and makes it: 1 where the answer differs.
fn lookup<R: Read>(list: &mut R, grid: &Grid) -> io::Result<u32>
    ensures { IfOk result (λ differ. differ ≤ 1) }
{
    let mut b = [0u8; 20];
    let n = read_bytes(list, &mut b)?;
    let b = &b[..n];
    let found = grid.value(Coordinate {
        x: i32::at(b, 0),
        y: i32::at(b, 4),
        z: i32::at(b, 8),
    });
    let answer = found.map(|v| float::bits_of(v)).map_err(|e| e.number());
    Ok(u32::from(answer != listed(b)))
}

// How many of the next n lookups differ.
fn lookups<R: Read>(list: &mut R, n: u32, grid: &Grid) -> io::Result<u32>
    ensures { IfOk result (λ differ. differ ≤ n) }
{
    let mut differ: u32 = 0;
    for _ in 0..n {
        differ += lookup(list, grid)?;
    }
    Ok(differ)
}

// The numbers at the head of a case.
#[derive(Clone, Copy)]
struct Head {
    bytes: [u8; 80],
}

impl Head {
    // Bytes past the end of the list count as 0.
    fn read<R: Read>(list: &mut R) -> io::Result<Head> {
        let mut bytes = [0u8; 80];
        let n = read_bytes(list, &mut bytes)?;
        bytes[n..].fill(0);
        Ok(Head { bytes })
    }

    fn word(&self, at: usize) -> u32 {
        u32::at(&self.bytes, at)
    }

    fn count(&self, at: usize) -> usize {
        self.word(at) as usize
    }

    // How many lookups a case has.
    fn asked(&self) -> u32
        ensures { result ≤ 65535 }
    {
        self.word(68).min(65535)
    }
}

// How many of the two checks of a grid differ.
fn checks(head: &Head, grid: &Grid) -> u32
    ensures { result ≤ 2 }
{
    let plain = refusals::fault(grid.validate());
    let density = refusals::fault(grid.validate_density());
    u32::from(plain != head.word(72)) + u32::from(density != head.word(76))
}

// How many lookups were made, and how many answers differ.
#[derive(Clone, Copy)]
struct Seen {
    lookups: u32,
    differ: u32,
}

// How many checks and lookups of a case differ.
fn judge<R: Read>(list: &mut R, head: &Head, grid: &Grid) -> io::Result<Seen>
    ensures { IfOk result (λ seen. (seen.lookups ≤ 65535) × (seen.differ ≤ 65537)) }
{
    let first = checks(head, grid);
    let asked = head.asked();
    let more = lookups(list, asked, grid)?;
    Ok(Seen {
        lookups: asked,
        differ: first + more,
    })
}

// Room for the tables of a case.
#[derive(Drop)]
struct Tables {
    blocks: [i32; 24],
    root_links: [u32; 8],
    root_values: [f32; 8],
    upper_links: [u32; 65536],
    upper_values: [f32; 65536],
    lower_links: [u32; 8192],
    lower_values: [f32; 8192],
    leaf_values: [f32; 1024],
}

impl Tables {
    // What stands in the list for each table that is not zero.
    fn fill<R: Read>(&mut self, list: &mut R, head: &Head) -> io::Result<()> {
        fill(list, head.word(32), &mut self.blocks)?;
        fill(list, head.word(36), &mut self.root_links)?;
        fill(list, head.word(40), &mut self.root_values)?;
        fill(list, head.word(44), &mut self.upper_links)?;
        fill(list, head.word(48), &mut self.upper_values)?;
        fill(list, head.word(52), &mut self.lower_links)?;
        fill(list, head.word(56), &mut self.lower_values)?;
        fill(list, head.word(60), &mut self.leaf_values)
    }

    // The parts of the tables that the head names.
    fn grid(&self, head: &Head) -> Grid {
        Grid {
            background: f32::at(&head.bytes, 64),
            blocks: first(&self.blocks, head.count(0)),
            roots: Entries {
                links: first(&self.root_links, head.count(4)),
                values: first(&self.root_values, head.count(8)),
            },
            upper: Entries {
                links: first(&self.upper_links, head.count(12)),
                values: first(&self.upper_values, head.count(16)),
            },
            lower: Entries {
                links: first(&self.lower_links, head.count(20)),
                values: first(&self.lower_values, head.count(24)),
            },
            leaf_values: first(&self.leaf_values, head.count(28)),
        }
    }
}

// Reads a case into tables of zeros and judges it.
fn replay<R: Read>(list: &mut R) -> io::Result<Seen>
    ensures { IfOk result (λ seen. (seen.lookups ≤ 65535) × (seen.differ ≤ 65537)) }
{
    let mut tables = Tables {
        blocks: [0; 24],
        root_links: [0; 8],
        root_values: [0.0; 8],
        upper_links: [0; 65536],
        upper_values: [0.0; 65536],
        lower_links: [0; 8192],
        lower_values: [0.0; 8192],
        leaf_values: [0.0; 1024],
    };
    let head = Head::read(list)?;
    tables.fill(list, &head)?;
    judge(list, &head, &tables.grid(&head))
}

// How many cases were replayed, and what was seen in them.
#[derive(Clone, Copy)]
struct Replayed {
    cases: u32,
    lookups: u32,
    differ: u32,
}

fn replay_all<R: Read>(list: &mut R) -> io::Result<Replayed> {
    let cases = read_cases(list)?;
    let mut lookups: u32 = 0;
    let mut differ: u32 = 0;
    for _ in 0..cases {
        let seen = replay(list)?;
        lookups += seen.lookups;
        differ += seen.differ;
    }
    Ok(Replayed {
        cases,
        lookups,
        differ,
    })
}

fn main(rt: HostRuntime) -> io::Result<()> {
    let list = &mut rt.reader();
    let all = replay_all(list)?;
    let out = &mut io::writer(&rt);
    report(out, all.cases, b" cases, ")?;
    report(out, all.lookups, b" lookups, ")?;
    report(out, all.differ, b" differ\n")
}
