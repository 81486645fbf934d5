// The block map at every block of a string, XOR a mask: what a run calls whose blocks do not hang on each other.
#![tactic(auto)]

ghost use Rattle.std.specs.Prelude.{◌≡◌, ◌*◌, ◌%◌, length};
ghost use Rattle.forms.specs.Lists.{when};
ghost use Rattle.forms.specs.Refusals.{outcome};
ghost use Rattle.forms.specs.Strings.{xor_bytes};
ghost use Rattle.forms.specs.Mapped.{each_block};
ghost use Rattle.labyrinth.specs.Working.{Size};
ghost use Rattle.labyrinth.specs.Lent.{lent};
ghost use Rattle.many_blocks.specs.Many.{many_refusal};

// The number, by n and the lengths of the source, the mask and the destination. No product is made before n is known to be small.
fn many_refusal(n: usize, source: usize, mask: usize, destination: usize) -> u8
    ensures { result ≡ many_refusal n source mask destination }
{
    if !labyrinth::is_legal(n) {
        return 1;
    }
    if source % (16 * n) != 0 {
        return 4;
    }
    if mask != source {
        return 4;
    }
    if destination != source {
        return 5;
    }
    0
}

// The block src or, with own, dst itself mapped, XOR the mask.
fn block(
    t: &[u64; 256],
    s: &[u8; 256],
    u: &[u8; 256],
    n: usize,
    ks: &[u64; 80],
    own: bool,
    src: &[u8],
    mask: &[u8],
    dst: &mut [u8],
)
    requires { Size n × (length src.now ≡ 16 * n) × (length mask.now ≡ 16 * n) × (length dst.old ≡ 16 * n) }
    ensures { dst.new ≡ xor_bytes (lent n t.now s.now u.now ks.now (when own dst.old src.now)) mask.now }
{
    let size = dst.len();
    let mut mapped = strings::zero_block();
    if own {
        table_cipher::map_block(t, s, u, n, ks, dst, &mut mapped[..size]);
    } else {
        table_cipher::map_block(t, s, u, n, ks, src, &mut mapped[..size]);
    }
    strings::xor_to(dst, mask, &mapped[..size]);
}

// Every block of src or, with own, of dst itself mapped, XOR the mask: block by block.
fn by_blocks(
    t: &[u64; 256],
    s: &[u8; 256],
    u: &[u8; 256],
    n: usize,
    ks: &[u64; 80],
    own: bool,
    src: &[u8],
    mask: &[u8],
    dst: &mut [u8],
)
    requires { Size n × (length src.now % (16 * n) ≡ 0) × (length mask.now ≡ length src.now) × (length dst.old ≡ length src.now) }
    ensures { dst.new ≡ xor_bytes (each_block (lent n t.now s.now u.now ks.now) (16 * n) (when own dst.old src.now)) mask.now }
{
    let size = 16 * n;
    let mut at = 0usize;
    while at < dst.len() {
        let end = at + size;
        block(
            t,
            s,
            u,
            n,
            ks,
            own,
            &src[at..end],
            &mask[at..end],
            &mut dst[at..end],
        );
        at = end;
    }
}

// The same by the wider forms: groups of 64 bytes, and block by block what is left.
fn by_groups(
    t: &[u64; 256],
    s: &[u8; 256],
    u: &[u8; 256],
    n: usize,
    ks: &[u64; 80],
    own: bool,
    src: &[u8],
    mask: &[u8],
    dst: &mut [u8],
)
    requires { Size n × (length src.now % (16 * n) ≡ 0) × (length mask.now ≡ length src.now) × (length dst.old ≡ length src.now) }
    ensures { dst.new ≡ xor_bytes (each_block (lent n t.now s.now u.now ks.now) (16 * n) (when own dst.old src.now)) mask.now }
{
    let whole = src.len() / 64 * 64;
    groups::map_groups(
        t,
        s,
        u,
        n,
        ks,
        own,
        &src[..whole],
        &mask[..whole],
        &mut dst[..whole],
    );
    by_blocks(
        t,
        s,
        u,
        n,
        ks,
        own,
        &src[whole..],
        &mask[whole..],
        &mut dst[whole..],
    );
}

// Whichever is faster for so many bytes.
fn mapped(
    t: &[u64; 256],
    s: &[u8; 256],
    u: &[u8; 256],
    n: usize,
    ks: &[u64; 80],
    own: bool,
    src: &[u8],
    mask: &[u8],
    dst: &mut [u8],
)
    requires { Size n × (length src.now % (16 * n) ≡ 0) × (length mask.now ≡ length src.now) × (length dst.old ≡ length src.now) }
    ensures { dst.new ≡ xor_bytes (each_block (lent n t.now s.now u.now ks.now) (16 * n) (when own dst.old src.now)) mask.now }
{
    if eight_tables::pays(src.len()) {
        by_groups(t, s, u, n, ks, own, src, mask, dst);
    } else {
        by_blocks(t, s, u, n, ks, own, src, mask, dst);
    }
}

// Every block of src mapped, XOR the mask, to dst. Whole blocks; mask and dst as long as src.
pub fn map_to(
    t: &[u64; 256],
    s: &[u8; 256],
    u: &[u8; 256],
    n: usize,
    ks: &[u64; 80],
    src: &[u8],
    mask: &[u8],
    dst: &mut [u8],
) -> u8
    ensures number { result ≡ many_refusal n (length src.now) (length mask.now) (length dst.old) }
    ensures blocks { dst.new ≡ outcome result (xor_bytes (each_block (lent n t.now s.now u.now ks.now) (16 * n) src.now) mask.now) dst.old }
{
    let number = many_refusal(n, src.len(), mask.len(), dst.len());
    if number != 0 {
        return number;
    }
    mapped(t, s, u, n, ks, false, src, mask, dst);
    0
}

// Every block of dst mapped in its place, XOR the mask. Whole blocks; mask as long as dst. What is passed as the source is not read.
pub fn map_in_place(
    t: &[u64; 256],
    s: &[u8; 256],
    u: &[u8; 256],
    n: usize,
    ks: &[u64; 80],
    mask: &[u8],
    dst: &mut [u8],
) -> u8
    ensures number { result ≡ many_refusal n (length dst.old) (length mask.now) (length dst.old) }
    ensures blocks { dst.new ≡ outcome result (xor_bytes (each_block (lent n t.now s.now u.now ks.now) (16 * n) dst.old) mask.now) dst.old }
{
    let number = many_refusal(n, dst.len(), mask.len(), dst.len());
    if number != 0 {
        return number;
    }
    mapped(t, s, u, n, ks, true, mask, mask, dst);
    0
}
