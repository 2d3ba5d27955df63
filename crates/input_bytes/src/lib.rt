// A whole input, read into a lent buffer.
#![tactic(auto)]

ghost use Rattle.std.specs.Prelude.{◌<◌, ◌≤◌, length, take, IfOk};
ghost use Rattle.std.specs.Io.KnownBytes.{Consumes, IsAtEnd};

use std::io;
use std::io::Read;

// Reads on until the input ends or the buffer is full, however the input comes in pieces, and answers how many bytes were
// read: the first that the input has, and all of them unless the buffer is full. No `for`: how far a turn leads is the
// input's choice.
pub fn read_full<I: Read>(input: &mut I, buffer: &mut [u8]) -> io::Result<usize>
    ensures within { IfOk result (λ bytes. bytes ≤ length buffer.new) }
    ensures first { IfOk result (λ bytes. Consumes (I.remaining input.old) (I.remaining input.new) (take bytes buffer.new)) }
    ensures whole { IfOk result (λ bytes. bytes < length buffer.new → IsAtEnd (I.remaining input.new)) }
{
    let mut done: usize = 0;
    while done < buffer.len() {
        let bytes = input.read(&mut buffer[done..])?;
        if bytes == 0 {
            return Ok(done);
        }
        done += bytes;
    }
    Ok(done)
}
