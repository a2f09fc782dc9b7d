// Reads a grid from standard input, to its end, and writes what it holds or the number of its refusal.
#![tactic(auto)]

use grid_program::GridText;
use std::io;

fn main(rt: HostRuntime) -> io::Result<()> {
    grid_program::print::<GridText>(&rt)
}
