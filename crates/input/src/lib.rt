// Reads an input into a buffer of a fixed size.
#![tactic(auto)]

ghost use Rattle.std.specs.Prelude.{◌<◌, ◌≤◌, length, take, IfOk};
ghost use Rattle.std.specs.Io.KnownBytes.{Consumes, IsAtEnd};

use std::io;
use std::io::Read;

// Reads until the buffer is full or the input ends; answers how many bytes it put at the buffer's start. A read that a
// signal interrupts counts as one that failed.
pub fn read_full<R: Read>(reader: &mut R, buffer: &mut [u8]) -> io::Result<usize>
    ensures within { IfOk result (λ n. n ≤ length buffer.new) }
    ensures bytes { IfOk result (λ n. Consumes (R.remaining reader.old) (R.remaining reader.new) (take n buffer.new)) }
    ensures end { IfOk result (λ n. n < length buffer.new → IsAtEnd (R.remaining reader.new)) }
{
    let mut at = 0;
    // A cursor: how far a read goes shows only after it, so no `for` goes over the reads.
    while at < buffer.len() {
        match reader.read(&mut buffer[at..])? {
            0 => return Ok(at),
            n => at += n,
        }
    }
    Ok(at)
}
