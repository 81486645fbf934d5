// Words in a buffer of bytes, the least byte first. A caller that is inside the buffer pays nothing for the
// test: the compiler sees that it holds.
#![tactic(auto)]

ghost use Rattle.std.specs.Prelude.{◌≡◌, ◌+◌, ◌≤◌, ◌↔◌, IsTrue};
ghost use Rattle.buffers.specs.Words.{word_at, with_word};

// Whether a word has room at a place of a buffer of so many bytes.
fn is_inside(at: usize, size: usize) -> bool
    ensures { IsTrue result ↔ (at + 8 ≤ size) }
{
    8 <= size && at <= size - 8
}

// The word at a place; 0 if it has no room there.
pub fn load_word(s: &[u8], at: usize) -> u64
    ensures { result ≡ word_at s.now at }
{
    if !is_inside(at, s.len()) {
        return 0;
    }
    match s[at..at + 8].first_chunk::<8>() {
        Some(b) => u64::from_le_bytes(*b),
        None => 0,
    }
}

// Puts a word at a place; nothing if it has no room there.
pub fn store_word(d: &mut [u8], at: usize, w: u64)
    ensures { d.new ≡ with_word at w d.old }
{
    if is_inside(at, d.len()) {
        let b = w.to_le_bytes();
        d[at..at + 8].copy_from_slice(&b);
    }
}
