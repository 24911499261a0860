// Standard input, or what else is read, to its end or until the buffer is full.
ghost use Rattle.std.specs.Prelude.{◌≡◌, ◌≤◌, ◌<◌, length, take, IfOk};
ghost use Rattle.std.specs.Io.KnownBytes.{Consumes, IsAtEnd};
ghost use Rattle.list.specs.Count.{count_of};

use std::io;
use std::io::Read;

// Why a read failed, and how many bytes had been read before.
#[derive(Drop)]
pub struct Broken {
    pub count: usize,
    pub error: io::Error,
}

// Reads until the buffer is full, the input ends or a read fails. How many bytes were read is answered.
pub fn read_input<R: Read>(input: &mut R, buffer: &mut [u8]) -> Result<usize, Broken>
    ensures count { count_of result ≤ length buffer.new }
    ensures bytes { Consumes (R.remaining input.old) (R.remaining input.new) (take (count_of result) buffer.new) }
    ensures end { IfOk result (λ n. n < length buffer.new → IsAtEnd (R.remaining input.new)) }
{
    let mut count = 0;
    // Kept: a `while`: it counts the bytes that reads gave, and goes over nothing.
    while count < buffer.len() {
        match input.read(&mut buffer[count..]) {
            Ok(0) => return Ok(count),
            Ok(more) => count += more,
            Err(error) => return Err(Broken { count, error }),
        }
    }
    Ok(count)
}
