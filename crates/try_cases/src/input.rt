// Reading standard input.
ghost use Rattle.std.specs.Prelude.{◌≤◌, length, IfOk};

use std::io;
use std::io::Read;

// Reads until the bytes are full or the input ends, and answers how many it put at their start.
pub fn read_full(input: &mut impl Read, bytes: &mut [u8]) -> io::Result<usize>
    ensures { IfOk result (λ n. n ≤ length bytes.new) }
{
    let mut end = 0;
    while end < bytes.len() {
        let more = input.read(&mut bytes[end..])?;
        if more == 0 {
            break;
        }
        end += more;
    }
    Ok(end)
}
