// Runs the day file on standard input and prints the day.
#![tactic(auto)]

ghost use Rattle.std.specs.Prelude.{◌≤◌, ◌<◌, length, take, IfOk};
ghost use Rattle.std.specs.Io.KnownBytes.{Consumes, IsAtEnd};

use dayfile::file::File;
use report::output::Output;
use std::io;
use std::io::{Read, Write};

// Fills the buffer from the reader, up to the input's end; how many bytes were put. It stops short of a full buffer only at the end.
fn read_full<R: Read>(reader: &mut R, buffer: &mut [u8]) -> io::Result<usize>
    ensures { IfOk result (λ n. (n ≤ length buffer.new) × Consumes (R.remaining reader.old) (R.remaining reader.new) (take n buffer.new) × (n < length buffer.new → IsAtEnd (R.remaining reader.new))) }
{
    let mut done = 0;
    while done < buffer.len() {
        let n = reader.read(&mut buffer[done..])?;
        if n == 0 {
            return Ok(done);
        }
        done += n;
    }
    Ok(done)
}

// One byte more than the longest good file tells a longer one.
fn main(rt: HostRuntime) -> io::Result<()> {
    let mut input = [0u8; File::LONGEST + 1];
    let n = read_full(&mut rt.reader(), &mut input)?;
    let mut out = [0u8; Output::BYTES];
    let end = report::output::report(&input[..n], &mut out);
    io::writer(&rt).write_all(&out[..end])
}
