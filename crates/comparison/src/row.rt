// Cases of a row, g_0 first, and 8 bytes more, lowest first:
//   3  'mix', the number, and the word of those bytes mixed
//   4  'table', the number, and every word of a buffer of so many words, at most 257, which held 5A5A5A5A5A5A0000 plus its place before
//   5  'product', and the product of the row by the row of those bytes
//   6  'inverse', the number, the inverse row and the row's product with it
ghost use Rattle.std.specs.Prelude.{◌≡◌, ◌≤◌, length};

use crate::printing;
use std::io;

fn print_mixed(rt: &impl Print, g: [u8; 8], w: u64) -> io::Result<()> {
    let m = rows::mix(g, w);
    print!(rt; "mix {}", m.number)?;
    printing::word(rt, m.word)
}

fn print_row(rt: &impl Print, g: &[u8; 8]) -> io::Result<()> {
    printing::bytes(rt, g)
}

fn print_product(rt: &impl Print, g: [u8; 8], h: [u8; 8]) -> io::Result<()> {
    let row = rows::product(g, h);
    print!(rt; "product")?;
    print_row(rt, &row)
}

fn print_inverse(rt: &impl Print, g: [u8; 8]) -> io::Result<()> {
    let x = rows::inverse(g);
    let row = x.row;
    print!(rt; "inverse {}", x.number)?;
    print_row(rt, &row)?;
    let one = rows::product(g, row);
    print_row(rt, &one)
}

// A buffer whose words are told apart.
fn marked() -> [u64; 257]
    ensures { length result ≡ 257 }
{
    let mut r = [0u64; 257];
    for i in 0..257usize {
        r[i] = 0x5A5A5A5A5A5A0000 + i as u64;
    }
    r
}

fn print_table(rt: &impl Print, g: [u8; 8], room: usize) -> io::Result<()>
    requires { room ≤ 257 }
{
    let mut space = marked();
    let table = &mut space[0..room];
    let number = rows::make_table(g, table);
    print!(rt; "table {number}")?;
    printing::words(rt, table)
}

pub fn print_case(rt: &impl Print, kind: u8, case: &[u8]) -> io::Result<()> {
    let g = rows::row_of(buffers::load_word(case, 0));
    let more = buffers::load_word(case, 8);
    match kind {
        3 => print_mixed(rt, g, more),
        5 => print_product(rt, g, rows::row_of(more)),
        6 => print_inverse(rt, g),
        _ if more <= 257 => print_table(rt, g, more as usize),
        _ => Ok(()),
    }
}
