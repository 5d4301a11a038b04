// Reading for the programs.
#![tactic(auto)]

ghost use Rattle.std.specs.Prelude.{◌≡◌, ◌+◌, ◌≤◌, ◌<◌, length, take, drop, IfOk};
ghost use Rattle.std.specs.Io.KnownBytes.{Consumes, IsAtEnd};

use std::io;
use std::io::Read;

// One read, into what stands from a place on.
fn read_at<R: Read>(from: &mut R, into: &mut [u8], at: usize) -> io::Result<usize>
    requires { at < length into.old }
    ensures front { take at into.new ≡ take at into.old }
    ensures fits { IfOk result (λ n. at + n ≤ length into.new) }
    ensures bytes { IfOk result (λ n. Consumes (R.remaining from.old) (R.remaining from.new) (take n (drop at into.new))) }
    ensures end { IfOk result (λ n. n ≡ 0 → IsAtEnd (R.remaining from.new)) }
{
    from.read(&mut into[at..])
}

// Reads until the slice is full or the input ends, and answers how many bytes it put at the slice's start.
pub fn read_full<R: Read>(from: &mut R, into: &mut [u8]) -> io::Result<usize>
    ensures fits { IfOk result (λ n. n ≤ length into.new) }
    ensures bytes { IfOk result (λ n. Consumes (R.remaining from.old) (R.remaining from.new) (take n into.new)) }
    ensures end { IfOk result (λ n. n < length into.new → IsAtEnd (R.remaining from.new)) }
{
    let mut done = 0;
    // No `for`: each read puts as many bytes as the reader has.
    while done < into.len() {
        let n = read_at(from, into, done)?;
        if n == 0 {
            return Ok(done);
        }
        done += n;
    }
    Ok(done)
}
