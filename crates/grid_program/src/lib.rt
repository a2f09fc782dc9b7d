// What the programs that read one grid share: standard input is read to its end, and a text of the grid is written. One byte more than a text
// takes is read, so that a longer input is noticed.
#![tactic(auto)]

ghost use Rattle.std.specs.Prelude.{OnOk, IfSome};
ghost use Rattle.std.specs.Io.KnownBytes.{Appends};
ghost use Rattle.report.specs.Report.{printed_of};

use input::read_full;
pub use report::{ClassText, GridText};
use report::{Text, printed};
use std::io;
use std::io::{Read, Write};

// How many bytes of an input are read.
const READ: usize = 32769;

// Writes the text of a grid that is read to its end.
pub fn write_text<T: Text, R: Read + Drop, W: Write>(mut input: R, output: &mut W) -> io::Result<()>
    ensures { OnOk result (IfSome (R.remaining input)
        (λ bytes. Appends (W.contents output.old) (W.contents output.new) (printed_of T.text bytes))) }
{
    let mut bytes = [0u8; READ];
    let read = read_full(&mut input, &mut bytes)?;
    let mut out = [0u8; 65536];
    let n = printed::<T>(&bytes[..read], &mut out);
    output.write_all(&out[..n])
}

// Prints the text of the grid on standard input.
pub fn print<T: Text>(rt: &(impl Input + Print)) -> io::Result<()> {
    write_text::<T, _, _>(rt.reader(), &mut io::writer(rt))
}
