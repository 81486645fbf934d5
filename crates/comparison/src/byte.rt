// Cases of a byte b:
//   0  'tables', b, S of b, the inverse of S at b, the merged word for b, and the word b mixed, all by what the article publishes
//   1  'turns', b, and the turns of a product by the multiplier b
//   2  'products', b, and for each a from 00 to FF the product of a by the multiplier b in two digits and the turns in one
use crate::printing;
use std::io;

fn print_tables(rt: &impl Print, b: u8) -> io::Result<()> {
    let s = tables::substitute(b);
    let inverse = tables::substitute_inverse(b);
    print!(rt; "tables {b:02x} {s:02x} {inverse:02x}")?;
    let merged = tables::merged_table();
    printing::word(rt, merged[usize::from(b)])?;
    let m = rows::mix(published::row(), u64::from(b));
    printing::word(rt, m.word)
}

fn print_turns(rt: &impl Print, b: u8) -> io::Result<()> {
    let turns = arithmetic::times(0xFF, b).turns;
    print!(rt; "turns {b:02x} {turns}")
}

fn print_product(rt: &impl Print, a: u8, b: u8) -> io::Result<()> {
    let p = arithmetic::times(a, b);
    print!(rt; " {:02x}{}", p.value, p.turns)
}

fn print_products(rt: &impl Print, b: u8) -> io::Result<()> {
    print!(rt; "products {b:02x}")?;
    for a in 0..=255 {
        print_product(rt, a, b)?;
    }
    Ok(())
}

pub fn print_case(rt: &impl Print, kind: u8, b: u8) -> io::Result<()> {
    match kind {
        0 => print_tables(rt, b),
        1 => print_turns(rt, b),
        _ => print_products(rt, b),
    }
}
