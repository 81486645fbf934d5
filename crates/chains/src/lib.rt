// The block map at every block of a string XOR what the block before it became: what a run calls whose blocks hang on each other.
#![tactic(auto)]

ghost use Rattle.std.specs.Prelude.{◌≡◌, true, ◌*◌, ◌/◌, ◌%◌, length};
ghost use Rattle.forms.specs.Lists.{when};
ghost use Rattle.forms.specs.Refusals.{outcome};
ghost use Rattle.forms.specs.Strings.{xor_bytes};
ghost use Rattle.forms.specs.Mapped.{chain_blocks, chain_last};
ghost use Rattle.labyrinth.specs.Working.{Size};
ghost use Rattle.labyrinth.specs.Groups.{four_lent, wide_lent};
ghost use Rattle.labyrinth.specs.Lent.{lent};
ghost use Rattle.chains.specs.Chains.{chain_refusal};

// The number, by n and the lengths of the block before the first, the source and the destination. No product is made before n is known to be small.
fn chain_refusal(n: usize, before: usize, source: usize, destination: usize) -> u8
    ensures { result ≡ chain_refusal n before source destination }
{
    if !labyrinth::is_legal(n) {
        return 1;
    }
    if before != 16 * n {
        return 6;
    }
    if source % (16 * n) != 0 {
        return 4;
    }
    if destination != source {
        return 5;
    }
    0
}

// A block chained: c becomes the XOR of the block and c, mapped.
fn link(
    t: &[u64; 256],
    s: &[u8; 256],
    u: &[u8; 256],
    n: usize,
    ks: &[u64; 80],
    c: &mut [u8],
    src: &[u8],
)
    requires { Size n × (length c.old ≡ 16 * n) × (length src.now ≡ 16 * n) }
    ensures { c.new ≡ lent n t.now s.now u.now ks.now (xor_bytes src.now c.old) }
{
    let size = c.len();
    let mut x = strings::zero_block();
    strings::xor_to(&mut x[..size], src, c);
    table_cipher::map_block(t, s, u, n, ks, &x[..size], c);
}

// Block after block; with keep, each is written to dst.
fn by_links(
    t: &[u64; 256],
    s: &[u8; 256],
    u: &[u8; 256],
    n: usize,
    ks: &[u64; 80],
    keep: bool,
    c: &mut [u8],
    src: &[u8],
    dst: &mut [u8],
)
    requires { Size n × (length c.old ≡ 16 * n) × (length src.now % (16 * n) ≡ 0) × (keep ≡ true → length dst.old ≡ length src.now) }
    ensures blocks { dst.new ≡ when keep (chain_blocks (lent n t.now s.now u.now ks.now) (16 * n) (length src.now / (16 * n)) c.old src.now) dst.old }
    ensures last { c.new ≡ chain_last (lent n t.now s.now u.now ks.now) (16 * n) (length src.now / (16 * n)) c.old src.now }
{
    let size = 16 * n;
    let mut at = 0usize;
    while at < src.len() {
        let end = at + size;
        link(t, s, u, n, ks, c, &src[at..end]);
        if keep {
            strings::copy_into(&mut dst[at..end], c);
        }
        at = end;
    }
}

// ---- by the wider forms: eight tables t, substitutions s and u spaced out

// A block of n = 1 chained.
fn link_1(t: &[u64; 2048], s: &[u8; 2056], u: &[u8; 2056], ks: &[u64; 80], c: &mut [u8], src: &[u8])
    requires { (length c.old ≡ 16) × (length src.now ≡ 16) }
    ensures { c.new ≡ four_lent 1 t.now s.now u.now ks.now (xor_bytes src.now c.old) }
{
    let x = [
        buffers::load_word(src, 0) ^ buffers::load_word(c, 0),
        buffers::load_word(src, 8) ^ buffers::load_word(c, 8),
    ];
    let y = wide_blocks::block_1(t, s, u, ks, x);
    buffers::store_word(c, 0, y[0]);
    buffers::store_word(c, 8, y[1]);
}

// A block of n = 2 chained.
fn link_2(t: &[u64; 2048], s: &[u8; 2056], u: &[u8; 2056], ks: &[u64; 80], c: &mut [u8], src: &[u8])
    requires { (length c.old ≡ 32) × (length src.now ≡ 32) }
    ensures { c.new ≡ four_lent 2 t.now s.now u.now ks.now (xor_bytes src.now c.old) }
{
    let x = [
        buffers::load_word(src, 0) ^ buffers::load_word(c, 0),
        buffers::load_word(src, 8) ^ buffers::load_word(c, 8),
        buffers::load_word(src, 16) ^ buffers::load_word(c, 16),
        buffers::load_word(src, 24) ^ buffers::load_word(c, 24),
    ];
    let y = wide_blocks::block_2(t, s, u, ks, x);
    buffers::store_word(c, 0, y[0]);
    buffers::store_word(c, 8, y[1]);
    buffers::store_word(c, 16, y[2]);
    buffers::store_word(c, 24, y[3]);
}

// A block of n = 4 chained.
fn link_4(t: &[u64; 2048], s: &[u8; 2056], u: &[u8; 2056], ks: &[u64; 80], c: &mut [u8], src: &[u8])
    requires { (length c.old ≡ 64) × (length src.now ≡ 64) }
    ensures { c.new ≡ wide_lent 4 t.now s.now u.now ks.now (xor_bytes src.now c.old) }
{
    let mut x = strings::zero_block();
    strings::xor_to(&mut x, src, c);
    groups::block_4(t, s, u, ks, &x, c);
}

// A block chained, whatever legal n is; the four tables give what the eight give.
fn wide_link(
    t: &[u64; 2048],
    s: &[u8; 2056],
    u: &[u8; 2056],
    n: usize,
    ks: &[u64; 80],
    c: &mut [u8],
    src: &[u8],
)
    requires { Size n × (length c.old ≡ 16 * n) × (length src.now ≡ 16 * n) × (four_lent n t.now s.now u.now ks.now ≡ wide_lent n t.now s.now u.now ks.now) }
    ensures { c.new ≡ wide_lent n t.now s.now u.now ks.now (xor_bytes src.now c.old) }
{
    if n == 1 {
        link_1(t, s, u, ks, c, src);
    } else if n == 2 {
        link_2(t, s, u, ks, c, src);
    } else {
        link_4(t, s, u, ks, c, src);
    }
}

// Block after block, as `by_links`.
fn by_wide_links(
    t: &[u64; 2048],
    s: &[u8; 2056],
    u: &[u8; 2056],
    n: usize,
    ks: &[u64; 80],
    keep: bool,
    c: &mut [u8],
    src: &[u8],
    dst: &mut [u8],
)
    requires { Size n × (length c.old ≡ 16 * n) × (length src.now % (16 * n) ≡ 0) × (keep ≡ true → length dst.old ≡ length src.now) × (four_lent n t.now s.now u.now ks.now ≡ wide_lent n t.now s.now u.now ks.now) }
    ensures blocks { dst.new ≡ when keep (chain_blocks (wide_lent n t.now s.now u.now ks.now) (16 * n) (length src.now / (16 * n)) c.old src.now) dst.old }
    ensures last { c.new ≡ chain_last (wide_lent n t.now s.now u.now ks.now) (16 * n) (length src.now / (16 * n)) c.old src.now }
{
    let size = 16 * n;
    let mut at = 0usize;
    while at < src.len() {
        let end = at + size;
        wide_link(t, s, u, n, ks, c, &src[at..end]);
        if keep {
            strings::copy_into(&mut dst[at..end], c);
        }
        at = end;
    }
}

// ---- all of it

// Whichever is faster for so many bytes: a chain gains half as much as blocks by themselves.
fn linked(
    t: &[u64; 256],
    s: &[u8; 256],
    u: &[u8; 256],
    n: usize,
    ks: &[u64; 80],
    keep: bool,
    c: &mut [u8],
    src: &[u8],
    dst: &mut [u8],
)
    requires { Size n × (length c.old ≡ 16 * n) × (length src.now % (16 * n) ≡ 0) × (keep ≡ true → length dst.old ≡ length src.now) }
    ensures blocks { dst.new ≡ when keep (chain_blocks (lent n t.now s.now u.now ks.now) (16 * n) (length src.now / (16 * n)) c.old src.now) dst.old }
    ensures last { c.new ≡ chain_last (lent n t.now s.now u.now ks.now) (16 * n) (length src.now / (16 * n)) c.old src.now }
{
    if eight_tables::pays(src.len() / 2) {
        let mut eight = eight_tables::zeros();
        eight_tables::fill(t, &mut eight);
        let there = spacing::spaced(s);
        let back = spacing::spaced(u);
        by_wide_links(&eight, &there, &back, n, ks, keep, c, src, dst);
    } else {
        by_links(t, s, u, n, ks, keep, c, src, dst);
    }
}

// Every block of src chained after c, to dst. Then c is the last. Whole blocks; dst as long as src.
pub fn chain(
    t: &[u64; 256],
    s: &[u8; 256],
    u: &[u8; 256],
    n: usize,
    ks: &[u64; 80],
    c: &mut [u8],
    src: &[u8],
    dst: &mut [u8],
) -> u8
    ensures number { result ≡ chain_refusal n (length c.old) (length src.now) (length dst.old) }
    ensures blocks { dst.new ≡ outcome result (chain_blocks (lent n t.now s.now u.now ks.now) (16 * n) (length src.now / (16 * n)) c.old src.now) dst.old }
    ensures last { c.new ≡ outcome result (chain_last (lent n t.now s.now u.now ks.now) (16 * n) (length src.now / (16 * n)) c.old src.now) c.old }
{
    let number = chain_refusal(n, c.len(), src.len(), dst.len());
    if number != 0 {
        return number;
    }
    linked(t, s, u, n, ks, true, c, src, dst);
    0
}

// Every block of src chained after c: only the last is kept, which c becomes. Whole blocks.
pub fn chain_on(
    t: &[u64; 256],
    s: &[u8; 256],
    u: &[u8; 256],
    n: usize,
    ks: &[u64; 80],
    c: &mut [u8],
    src: &[u8],
) -> u8
    ensures number { result ≡ chain_refusal n (length c.old) (length src.now) (length src.now) }
    ensures last { c.new ≡ outcome result (chain_last (lent n t.now s.now u.now ks.now) (16 * n) (length src.now / (16 * n)) c.old src.now) c.old }
{
    let number = chain_refusal(n, c.len(), src.len(), src.len());
    if number != 0 {
        return number;
    }
    let mut none = [0u8; 1];
    linked(t, s, u, n, ks, false, c, src, &mut none[..0]);
    0
}
