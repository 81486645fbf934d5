// What the programs read by: a buffer filled from a reader.
#![tactic(auto)]

ghost use Rattle.std.specs.Prelude.{◌<◌, ◌≤◌, length, take, IfOk};
ghost use Rattle.std.specs.Io.KnownBytes.{Consumes, IsAtEnd};

use std::io;
use std::io::Read;

// Reads until the buffer is full, the input ends or a read fails, and says how many bytes were read.
// A `while`: how many reads there will be, and how much each gives, is the reader's.
pub fn read_full<R: Read>(input: &mut R, s: &mut [u8]) -> io::Result<usize>
    ensures bound { IfOk result (λ count. count ≤ length s.new) }
    ensures bytes { IfOk result (λ count. Consumes (R.remaining input.old) (R.remaining input.new) (take count s.new)) }
    ensures end { IfOk result (λ count. count < length s.new → IsAtEnd (R.remaining input.new)) }
{
    let mut at = 0usize;
    while at < s.len() {
        let more = input.read(&mut s[at..])?;
        if more == 0 {
            break;
        }
        at += more;
    }
    Ok(at)
}
