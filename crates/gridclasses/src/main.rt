// Reads a grid from standard input, to its end, and writes how many coordinates of its index box hold thin, middling and heavy smoke, or the number
// of its refusal.
#![tactic(auto)]

use grid_program::ClassText;
use std::io;

fn main(rt: HostRuntime) -> io::Result<()> {
    grid_program::print::<ClassText>(&rt)
}
