// A register of page keys as bytes in a lent buffer, as C hands it over (crates/register_layout): read whole, and one more entry put behind those that it
// holds; an entry written to a buffer of its own, 44 bytes.
#![tactic(auto)]

ghost use Rattle.std.specs.Prelude.{◌≡◌, ◌++◌, ◌+◌, ◌≤◌, eqb, length, take, drop};
ghost use Rattle.forms.specs.Lists.{when, words_from};
ghost use Rattle.registers.specs.Registers.{extended};
ghost use Rattle.register_layout.specs.Layout.{two_byte_number, entry_in, entry_bytes, register_in, register_bytes, has_room};

use registers::{Entry, Register};

// The number of two bytes at a place; a byte that has no room there is 0.
fn number_at(b: &[u8], at: usize) -> u16
    ensures { result ≡ two_byte_number b.now at }
{
    u16::from_le_bytes(strings::bytes_at(b, at))
}

// The entry at a place.
fn entry_at(b: &[u8], at: usize) -> Entry
    requires { at ≤ 4000 }
    ensures { result ≡ entry_in b.now at }
{
    Entry {
        number: number_at(b, at),
        replaces: number_at(b, at + 2),
        key: strings::bytes_at(b, at + 4),
    }
}

// The register that bytes are; a byte that they lack is 0.
pub fn register_of(b: &[u8]) -> Register
    ensures { result ≡ register_in b.now }
{
    Register {
        count: buffers::load_word(b, 0) as usize,
        entries: std::array::from_fn(|i| entry_at(b, 8 + 44 * i)),
    }
}

// The wrapped key that bytes are; a byte that they lack is 0.
pub fn key_of(b: &[u8]) -> [u8; 40]
    ensures { result ≡ words_from 40 0 b.now }
{
    strings::bytes_at(b, 0)
}

// Puts an entry's 44 bytes at a place.
fn lay(d: &mut [u8], at: usize, e: &Entry)
    requires { at + 44 ≤ length d.old }
    ensures { d.new ≡ take at d.old ++ (entry_bytes e.now ++ drop (at + 44) d.old) }
{
    d[at..at + 2].copy_from_slice(&e.number.to_le_bytes());
    d[at + 2..at + 4].copy_from_slice(&e.replaces.to_le_bytes());
    d[at + 4..at + 44].copy_from_slice(&e.key);
}

// Writes an entry to a buffer of its length; another is left as it was.
pub fn put_entry(e: Entry, d: &mut [u8])
    ensures { d.new ≡ when (eqb (length d.old) 44) (entry_bytes e) d.old }
{
    let other = d.len() != 44;
    if other {
        return;
    }
    lay(d, 0, &e);
}

// Puts an entry behind those that a register in a buffer holds, and counts it: the other bytes stay. A register that is full, or a buffer of another
// length, is left as it was.
pub fn extend(e: Entry, d: &mut [u8])
    ensures { d.new ≡ when (has_room d.old) (register_bytes (extended (register_in d.old) e)) d.old }
{
    if d.len() != 2824 {
        return;
    }
    let n = buffers::load_word(d, 0);
    if 64 <= n {
        return;
    }
    buffers::store_word(d, 0, n + 1);
    lay(d, 8 + 44 * (n as usize), &e);
}
