// What the programs read: bytes in the front of a table of fixed length.
#![tactic(auto)]

ghost use Rattle.std.specs.Prelude.{◌<◌, ◌≤◌, length, take, IfOk};
ghost use Rattle.std.specs.Io.KnownBytes.{Consumes, IsAtEnd};

use std::io;
use std::io::Read;

// Reads until the bytes are full or the input ends, and answers how many it put in front.
pub fn read_full<R: Read>(reader: &mut R, bytes: &mut [u8]) -> io::Result<usize>
    ensures in_bounds { IfOk result (λ n. n ≤ length bytes.new) }
    ensures front { IfOk result (λ n. Consumes (R.remaining reader.old) (R.remaining reader.new) (take n bytes.new)) }
    ensures end { IfOk result (λ n. n < length bytes.new → IsAtEnd (R.remaining reader.new)) }
{
    let mut done: usize = 0;
    while done < bytes.len() {
        let n = reader.read(&mut bytes[done..])?;
        if n == 0 {
            return Ok(done);
        }
        done += n;
    }
    Ok(done)
}
