// Words and bytes in hexadecimal digits: a byte's two, a word's sixteen with the highest first.
use std::io;

// A word behind a space.
pub fn word(rt: &impl Print, w: u64) -> io::Result<()> {
    print!(rt; " {w:016x}")
}

// Bytes behind a space.
pub fn bytes(rt: &impl Print, s: &[u8]) -> io::Result<()> {
    print!(rt; " ")?;
    for b in s {
        print!(rt; "{b:02x}")?;
    }
    Ok(())
}

pub fn words(rt: &impl Print, s: &[u64]) -> io::Result<()> {
    for w in s {
        word(rt, *w)?;
    }
    Ok(())
}

// What an operation answered: its name, its number, and what the destination then has.
pub fn answer(rt: &impl Print, name: &str, n: u8, dst: &[u8]) -> io::Result<()> {
    print!(rt; "{name} {n}")?;
    bytes(rt, dst)
}
