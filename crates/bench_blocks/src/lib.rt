// What the benchmark (bench/bench.c) times: many blocks, each by itself, with what the block map needs prepared once; runs; tags; wrapped keys, and
// beside them as many blocks; and the merged table of a row.
// It only states what makes it safe: the contracts of the cipher and the runs say what the bytes become.
#![tactic(auto)]

ghost use Rattle.std.specs.Prelude.{◌≡◌, length};
ghost use Rattle.labyrinth.specs.Working.{Size};

use labyrinth::WorkingKey;

// Maps every whole block of src.
fn each_block(
    t: &[u64],
    s: &[u8; 256],
    u: &[u8; 256],
    n: usize,
    ks: &[u64; 80],
    src: &[u8],
    dst: &mut [u8],
)
    requires { Size n × (length src.now ≡ length dst.old) }
{
    let size = 16 * n;
    let mut at = 0usize;
    while size <= src.len() - at {
        let end = at + size;
        table_cipher::map_block(t, s, u, n, ks, &src[at..end], &mut dst[at..end]);
        at = end;
    }
}

// Enciphers or, with back other than 0, deciphers every whole block of src to dst: 1 if n isn't 1, 2 or 4, 5 if the lengths
// differ, and then nothing is done.
#[unsafe(no_mangle)]
pub extern "C" fn sigourta_blocks(
    n: usize,
    words: &[u64; 32],
    back: u8,
    src: &[u8],
    dst: &mut [u8],
) -> u8 {
    if !labyrinth::is_legal(n) {
        return 1;
    }
    if src.len() != dst.len() {
        return 5;
    }
    let t = table_cipher::eight_tables(&table_cipher::table());
    let s = table_cipher::substitution();
    let u = table_cipher::inverse();
    let k = WorkingKey {
        n: n,
        set: 0,
        words: *words,
    };
    let ks = table_cipher::schedule(k, back != 0);
    each_block(&t, &s, &u, n, &ks, src, dst);
    0
}

fn key(n: usize, words: &[u64; 32]) -> WorkingKey {
    WorkingKey {
        n: n,
        set: 0,
        words: *words,
    }
}

// Expands a key of l half-blocks.
#[unsafe(no_mangle)]
pub extern "C" fn sigourta_expand(n: usize, l: usize, key: &[u8], words: &mut [u64; 32]) -> u8 {
    let x = expansion::expand_published(n, l, key);
    let k = x.key;
    let w = k.words;
    *words = w;
    x.number
}

#[unsafe(no_mangle)]
pub extern "C" fn sigourta_cbc_seal(
    n: usize,
    words: &[u64; 32],
    start: &[u8],
    src: &[u8],
    dst: &mut [u8],
) -> u8 {
    cbc::seal_published(key(n, words), start, src, dst)
}

#[unsafe(no_mangle)]
pub extern "C" fn sigourta_cbc_open(
    n: usize,
    words: &[u64; 32],
    start: &[u8],
    src: &[u8],
    dst: &mut [u8],
) -> u8 {
    cbc::open_published(key(n, words), start, src, dst)
}

#[unsafe(no_mangle)]
pub extern "C" fn sigourta_ctr(
    n: usize,
    words: &[u64; 32],
    start: &[u8],
    q: u64,
    src: &[u8],
    dst: &mut [u8],
) -> u8 {
    ctr::run_published(key(n, words), start, q, src, dst)
}

#[unsafe(no_mangle)]
pub extern "C" fn sigourta_cmac(words: &[u64; 32], message: &[u8], tag: &mut [u8]) -> u8 {
    cmac::make_published(key(1, words), message, tag)
}

// Whether the tag is the message's: 1 or 0.
#[unsafe(no_mangle)]
pub extern "C" fn sigourta_cmac_verify(words: &[u64; 32], message: &[u8], tag: &[u8]) -> u8 {
    let v = cmac::verify_published(key(1, words), message, tag);
    if v.yes { 1 } else { 0 }
}

// Makes the merged table of a row.
#[unsafe(no_mangle)]
pub extern "C" fn sigourta_make_table(row: &[u8; 8], table: &mut [u64]) -> u8 {
    rows::make_table(*row, table)
}

#[unsafe(no_mangle)]
pub extern "C" fn sigourta_wrap(words: &[u64; 32], src: &[u8], dst: &mut [u8]) -> u8 {
    key_wrap::wrap_published(key(1, words), src, dst)
}

#[unsafe(no_mangle)]
pub extern "C" fn sigourta_unwrap(words: &[u64; 32], src: &[u8], dst: &mut [u8]) -> u8 {
    key_wrap::unwrap_published(key(1, words), src, dst)
}

// Maps a block to another place, and that back to the first, so many times.
fn to_and_fro(
    t: &[u64; 256],
    s: &[u8; 256],
    u: &[u8; 256],
    ks: &[u64; 80],
    pairs: u8,
    one: &mut [u8],
    two: &mut [u8],
) {
    let mut i = 0u8;
    while i < pairs {
        table_cipher::map_block(t, s, u, 1, ks, one, two);
        table_cipher::map_block(t, s, u, 1, ks, two, one);
        i += 1;
    }
}

// The block calls of a wrapped key and no more: what is lent, prepared as for one, then so many pairs of blocks, each made of the one before.
#[unsafe(no_mangle)]
pub extern "C" fn sigourta_block_calls(
    words: &[u64; 32],
    pairs: u8,
    one: &mut [u8],
    two: &mut [u8],
) {
    let t = table_cipher::table();
    let s = table_cipher::substitution();
    let u = table_cipher::inverse();
    let ks = table_cipher::schedule(key(1, words), false);
    to_and_fro(&t, &s, &u, &ks, pairs, one, two);
}
