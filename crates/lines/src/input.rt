// Standard input, read so that its end and a failed read are told apart.
ghost use Rattle.std.specs.Prelude.{◌<◌, length, take, IfOk};
ghost use Rattle.std.specs.Io.KnownBytes.{Consumes, IsAtEnd};
ghost use Rattle.io.specs.Counts.{IsPrefixLen};
ghost use Rattle.lines.specs.Stream.{counted};

use crate::stream::Failed;
use std::io::Read;

// Reads until the lent bytes are full, the reader ends or a read fails. It is a loop over reads: what
// the library's read_exact leaves after a failure is said nowhere, and the clause `count` has to hold
// then too.
fn fill<R: Read>(reader: &mut R, bytes: &mut [u8]) -> Result<usize, Failed>
    ensures count { IsPrefixLen (counted result) bytes.new }
    ensures consumed { Consumes (R.remaining reader.old) (R.remaining reader.new) (take (counted result) bytes.new) }
    ensures end { IfOk result (λ count. count < length bytes.new → IsAtEnd (R.remaining reader.new)) }
{
    let mut count = 0;
    while count < bytes.len() {
        match reader.read(&mut bytes[count..]) {
            Ok(0) => break,
            Ok(n) => count += n,
            Err(_) => return Err(Failed { count }),
        }
    }
    Ok(count)
}

// Reads until the lent bytes are full, the input ends or a read fails; the last is told on standard
// error. No contract can say which bytes there are to read; what is said is that as many as counted
// stand at the front.
pub fn read_input(rt: &HostRuntime, bytes: &mut [u8]) -> Result<usize, Failed>
    ensures { IsPrefixLen (counted result) bytes.new }
{
    let mut stdin = rt.stdin();
    let input = fill(&mut stdin, bytes);
    if input.is_err() {
        let _ = rt.eprintln("standard input cannot be read");
    }
    input
}
