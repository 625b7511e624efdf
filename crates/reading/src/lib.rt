// Reads a lent buffer full: an image's file, and the stored cases of the test programs.
// Promised of an OK: so many bytes of the buffer's front are the input's next ones, none lost and none twice, where the input's bytes are known; and fewer
// than have room came only where it has ended. Of an error nothing is promised.
#![tactic(auto)]

ghost use Rattle.std.specs.Prelude.{◌<◌, length, take, IfOk};
ghost use Rattle.std.specs.Io.{ReadsAtMost};
ghost use Rattle.std.specs.Io.KnownBytes.{Consumes, IsAtEnd};

use std::io;
use std::io::Read;

// Reads until `into` is full or the input ends, and answers how many bytes it put at its start; `read_exact` doesn't say where an input ended.
pub fn read_full<R: Read>(from: &mut R, into: &mut [u8]) -> io::Result<usize>
    ensures in_bounds { ReadsAtMost result into.new }
    ensures bytes { IfOk result (λ n. Consumes (R.remaining from.old) (R.remaining from.new) (take n into.new)) }
    ensures end { IfOk result (λ n. n < length into.new → IsAtEnd (R.remaining from.new)) }
{
    let mut done = 0;
    // each turn goes on by as many bytes as came: no `for` counts them
    while done < into.len() {
        let n = from.read(&mut into[done..])?;
        if n == 0 {
            break;
        }
        done += n;
    }
    Ok(done)
}
