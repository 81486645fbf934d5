// Cases as `given` has them, without a start block:
//   7  'expand', the number, and n and all 32 words of the key
//   8 to 11  'encipher table', 'encipher matrix', 'decipher table', 'decipher matrix', the number and the destination
//   18 and 19  'key wrap', 'key unwrap', the same
use crate::{given, printing, reading};
use labyrinth::WorkingKey;
use std::io;

fn print_words(rt: &impl Print, words: &[u64; 32]) -> io::Result<()> {
    printing::words(rt, words)
}

fn print_expanded(rt: &impl Print, case: &[u8]) -> io::Result<()> {
    let e = given::expanded(case);
    let k = e.key;
    let words = k.words;
    print!(rt; "expand {} {}", e.number, k.n)?;
    print_words(rt, &words)
}

fn print_block(
    rt: &impl Print,
    kind: u8,
    k: WorkingKey,
    src: &[u8],
    dst: &mut [u8],
) -> io::Result<()> {
    let store = stores::fresh();
    let (name, number) = match kind {
        8 => (
            "encipher table",
            table_cipher::encipher_by_table(store, k, src, dst),
        ),
        9 => (
            "encipher matrix",
            matrix_cipher::encipher_by_matrix(store, k, src, dst),
        ),
        10 => (
            "decipher table",
            table_cipher::decipher_by_table(store, k, src, dst),
        ),
        _ => (
            "decipher matrix",
            matrix_cipher::decipher_by_matrix(store, k, src, dst),
        ),
    };
    printing::answer(rt, name, number, dst)
}

fn print_key(
    rt: &impl Print,
    kind: u8,
    k: WorkingKey,
    src: &[u8],
    dst: &mut [u8],
) -> io::Result<()> {
    let store = stores::fresh();
    let (name, number) = match kind {
        18 => ("key wrap", key_wrap::wrap(store, k, src, dst)),
        _ => ("key unwrap", key_wrap::unwrap(store, k, src, dst)),
    };
    printing::answer(rt, name, number, dst)
}

pub fn print_case(rt: &impl Print, kind: u8, case: &[u8]) -> io::Result<()> {
    if kind == 7 {
        return print_expanded(rt, case);
    }
    let mut space = given::space();
    let dst = reading::front(&mut space, given::room(case));
    if kind < 12 {
        print_block(rt, kind, given::working_key(case), given::source(case), dst)
    } else {
        print_key(rt, kind, given::working_key(case), given::source(case), dst)
    }
}
