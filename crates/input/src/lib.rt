// Reads of an input into lent bytes, until they are full or the input ends. Nothing is allocated: an error is the input's own, or that it was
// interrupted at every one of 2^64 - 1 tries.
#![tactic(auto)]

ghost use Rattle.std.specs.Prelude.{◌≡◌, ◌≢◌, ◌+◌, ◌<◌, ◌≤◌, length, take, drop, OnOk, IfOk, IfErr, Some, IfSome};
ghost use Rattle.std.specs.Io.{ReadsAtMost};
ghost use Rattle.std.specs.Io.KnownBytes.{Consumes, IsAtEnd};
ghost use Rattle.std.specs.IoError.{error_kind};

use std::io;
use std::io::{ErrorKind, Read};

// One read, made again where a signal interrupts it. It gives up in the end, as the library's own reads do, since each function must return.
fn read_once<R: Read>(input: &mut R, bytes: &mut [u8]) -> io::Result<usize>
    ensures bound { ReadsAtMost result bytes.new }
    ensures ok { IfOk result (λ n. Consumes (R.remaining input.old) (R.remaining input.new) (take n bytes.new)) }
    ensures end { IfOk result (λ n. n ≡ 0 → 0 < length bytes.old → IsAtEnd (R.remaining input.new)) }
    ensures retried { IfErr result (λ e. error_kind e ≢ ErrorKind.Interrupted) }
{
    for _ in 0..u64::MAX {
        match input.read(bytes) {
            Ok(n) => return Ok(n),
            Err(e) => {
                if e.kind() != ErrorKind::Interrupted {
                    return Err(e);
                }
            }
        }
    }
    Err(io::Error::from(ErrorKind::TimedOut))
}

// Reads until the bytes are full or the input ends, and says how many bytes the input gave. What it gave stands at the front of the bytes.
pub fn read_full<R: Read>(input: &mut R, bytes: &mut [u8]) -> io::Result<usize>
    ensures within { IfOk result (λ n. n ≤ length bytes.old) }
    ensures front { IfOk result (λ n. IfSome (R.remaining input.old) (λ all. take n bytes.new ≡ take (length bytes.old) all)) }
    ensures rest { OnOk result (IfSome (R.remaining input.old) (λ all. R.remaining input.new ≡ Some (drop (length bytes.old) all))) }
    ensures retried { IfErr result (λ e. error_kind e ≢ ErrorKind.Interrupted) }
{
    let mut n: usize = 0;
    while n < bytes.len() {
        let more = read_once(input, &mut bytes[n..])?;
        if more == 0 {
            return Ok(n);
        }
        n += more;
    }
    Ok(n)
}
