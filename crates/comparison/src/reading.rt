// Bytes and parts of buffers, where they are there.
ghost use Rattle.std.specs.Prelude.{◌<◌};

// The byte at a place, or 0.
pub fn byte_at(s: &[u8], at: usize) -> u8 {
    s.get(at).copied().unwrap_or(0)
}

// The number of two bytes, lowest first; of none, 0.
pub fn pair_at(s: &[u8], at: usize) -> usize
    ensures { result < 65536 }
{
    if at < s.len() {
        usize::from(byte_at(s, at)) + 256 * usize::from(byte_at(s, at + 1))
    } else {
        0
    }
}

// The bytes from one place to another, or none.
pub fn part(s: &[u8], from: usize, to: usize) -> &[u8] {
    if from <= to {
        if to <= s.len() {
            return &s[from..to];
        }
    }
    &s[0..0]
}

// The front of a buffer, or all.
pub fn front(s: &mut [u8], count: usize) -> &mut [u8] {
    if count <= s.len() {
        return &mut s[0..count];
    }
    s
}
