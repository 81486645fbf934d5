// What an operation under a key is given: n, l and q in 8 bytes each, the lengths of the key, of the start block or the tag, of the source
// and of the destination in 2 bytes each, all lowest byte first; then the key, the start block or the tag, and the source.
ghost use Rattle.std.specs.Prelude.{◌≡◌, ◌<◌, length};

use crate::reading;
use labyrinth::{Expanded, WorkingKey};

// Where the start block begins, and the source.
fn start_at(case: &[u8]) -> usize
    ensures { result < 65568 }
{
    32 + reading::pair_at(case, 24)
}

fn source_at(case: &[u8]) -> usize
    ensures { result < 131104 }
{
    start_at(case) + reading::pair_at(case, 26)
}

pub fn start(case: &[u8]) -> &[u8] {
    reading::part(case, start_at(case), source_at(case))
}

pub fn source(case: &[u8]) -> &[u8] {
    reading::part(
        case,
        source_at(case),
        source_at(case) + reading::pair_at(case, 28),
    )
}

pub fn q(case: &[u8]) -> u64 {
    buffers::load_word(case, 16)
}

pub fn expanded(case: &[u8]) -> Expanded {
    let n = buffers::load_word(case, 0) as usize;
    let l = buffers::load_word(case, 8) as usize;
    expansion::expand(
        stores::fresh(),
        n,
        l,
        0,
        reading::part(case, 32, start_at(case)),
    )
}

// The working key: expanded, or with l = 0 made by hand, of that n and of words alike.
pub fn working_key(case: &[u8]) -> WorkingKey {
    if buffers::load_word(case, 8) == 0 {
        return WorkingKey {
            n: buffers::load_word(case, 0) as usize,
            set: 0,
            words: [0x0123456789ABCDEF; 32],
        };
    }
    let e = expanded(case);
    let k = e.key;
    k
}

// What a destination is the front of: bytes 5A.
pub fn space() -> [u8; 2048]
    ensures { 2048 ≡ length result }
{
    [0x5A; 2048]
}

// The length of the destination.
pub fn room(case: &[u8]) -> usize {
    reading::pair_at(case, 30)
}
