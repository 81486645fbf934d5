// Blocks mapped 64 bytes at a time: a group of them is worked side by side, four at n = 1, two at n = 2, one at n = 4. What that wants, a
// merged table as eight and both substitutions spaced out, is made here, once for a string.
#![tactic(auto)]

ghost use Rattle.std.specs.Prelude.{◌≡◌, true, ◌&&◌, ◌*◌, ◌%◌, eqb, length};
ghost use Rattle.forms.specs.Lists.{when};
ghost use Rattle.forms.specs.Words.{words, bytes};
ghost use Rattle.forms.specs.Strings.{xor_bytes};
ghost use Rattle.forms.specs.Mapped.{each_block};
ghost use Rattle.labyrinth.specs.Working.{Size, lookup_in};
ghost use Rattle.labyrinth.specs.Groups.{besides, apart, joined, spaced_sub, line_by, wide_lent};
ghost use Rattle.labyrinth.specs.Lent.{lent};
ghost use Rattle.labyrinth.specs.Refusals.{legal};

// The eight words of 64 bytes.
fn group_words(s: &[u8]) -> [u64; 8]
    requires { length s.now ≡ 64 }
    ensures { result ≡ words 8 s.now }
{
    let mut x = [0u64; 8];
    for i in 0..8 {
        x[i] = buffers::load_word(s, 8 * i);
    }
    x
}

// Those of the source or, with own, of the destination itself.
fn given_words(own: bool, src: &[u8], dst: &[u8]) -> [u64; 8]
    requires { (length src.now ≡ 64) × (length dst.now ≡ 64) }
    ensures { result ≡ words 8 (when own dst.now src.now) }
{
    if own {
        group_words(dst)
    } else {
        group_words(src)
    }
}

// The bytes of eight words, XOR the mask.
fn put_words(x: [u64; 8], mask: &[u8], dst: &mut [u8])
    requires { (length mask.now ≡ 64) × (length dst.old ≡ 64) }
    ensures { dst.new ≡ xor_bytes (bytes 8 x) mask.now }
{
    for i in 0..8 {
        buffers::store_word(dst, 8 * i, x[i] ^ buffers::load_word(mask, 8 * i));
    }
}

// ---- a group from eight words to eight words: a machine text for each N, each called from one place only, so that the compiler puts it into the loop

// The blocks of N words a half.
fn group_of<const N: usize>(
    t: &[u64; 2048],
    s: &[u8; 2056],
    u: &[u8; 2056],
    ks: &[u64; 80],
    x: [u64; 8],
) -> [u64; 8]
    requires { Size N }
    ensures { result ≡ joined N (besides N (line_by (spaced_sub s.now) (spaced_sub u.now) (lookup_in true t.now) N ks.now) (apart N x)) }
{
    let h = group_rounds::rounds::<N>(t, ks, group_transforms::enter::<N>(s, ks, x));
    group_transforms::leave::<N>(u, ks, labyrinth::exchange(h))
}

// Whatever legal n is.
fn group(
    t: &[u64; 2048],
    s: &[u8; 2056],
    u: &[u8; 2056],
    n: usize,
    ks: &[u64; 80],
    x: [u64; 8],
) -> [u64; 8]
    requires { Size n }
    ensures { result ≡ joined n (besides n (line_by (spaced_sub s.now) (spaced_sub u.now) (lookup_in true t.now) n ks.now) (apart n x)) }
{
    match n {
        1 => group_of::<1>(t, s, u, ks, x),
        2 => group_of::<2>(t, s, u, ks, x),
        _ => group_of::<4>(t, s, u, ks, x),
    }
}

// ---- from bytes to bytes

// The group src or, with own, dst itself mapped, XOR the mask.
fn side_by_side(
    t: &[u64; 2048],
    s: &[u8; 2056],
    u: &[u8; 2056],
    n: usize,
    ks: &[u64; 80],
    own: bool,
    src: &[u8],
    mask: &[u8],
    dst: &mut [u8],
)
    requires { Size n × (length src.now ≡ 64) × (length mask.now ≡ 64) × (length dst.old ≡ 64) }
    ensures { dst.new ≡ xor_bytes (each_block (wide_lent n t.now s.now u.now ks.now) (16 * n) (when own dst.old src.now)) mask.now }
{
    let x = given_words(own, src, dst);
    put_words(group(t, s, u, n, ks, x), mask, dst);
}

// Group after group.
fn each_group(
    t: &[u64; 2048],
    s: &[u8; 2056],
    u: &[u8; 2056],
    n: usize,
    ks: &[u64; 80],
    own: bool,
    src: &[u8],
    mask: &[u8],
    dst: &mut [u8],
)
    requires { Size n × (length src.now % 64 ≡ 0) × (length mask.now ≡ length src.now) × (length dst.old ≡ length src.now) }
    ensures { dst.new ≡ xor_bytes (each_block (wide_lent n t.now s.now u.now ks.now) (16 * n) (when own dst.old src.now)) mask.now }
{
    for i in 0..dst.len() / 64 {
        let at = 64 * i;
        let end = at + 64;
        side_by_side(
            t,
            s,
            u,
            n,
            ks,
            own,
            &src[at..end],
            &mask[at..end],
            &mut dst[at..end],
        );
    }
}

// ---- all of it

// One block of n = 4 mapped; nothing where the lengths are not 64.
pub fn block_4(
    t: &[u64; 2048],
    s: &[u8; 2056],
    u: &[u8; 2056],
    ks: &[u64; 80],
    src: &[u8],
    dst: &mut [u8],
)
    ensures { dst.new ≡ when (eqb (length src.now) 64 && eqb (length dst.old) 64) (wide_lent 4 t.now s.now u.now ks.now src.now) dst.old }
{
    if src.len() != 64 {
        return;
    }
    if dst.len() != 64 {
        return;
    }
    let zeros = strings::zero_block();
    each_group(t, s, u, 4, ks, false, src, &zeros, dst);
}

// Whether it is groups of blocks: n is legal, and all lengths are one multiple of 64.
fn are_groups(n: usize, source: usize, mask: usize, destination: usize) -> bool
    ensures { result ≡ (legal n && (eqb (source % 64) 0 && (eqb mask source && eqb destination source))) }
{
    if !labyrinth::is_legal(n) {
        return false;
    }
    if source % 64 != 0 {
        return false;
    }
    if mask != source {
        return false;
    }
    destination == source
}

// Every block of src or, with own, of dst itself mapped, XOR the mask, by what is lent: a merged table t, a substitution s, its inverse u and
// a schedule ks. Nothing for an illegal n, and where the lengths are not one multiple of 64.
pub fn map_groups(
    t: &[u64; 256],
    s: &[u8; 256],
    u: &[u8; 256],
    n: usize,
    ks: &[u64; 80],
    own: bool,
    src: &[u8],
    mask: &[u8],
    dst: &mut [u8],
)
    ensures { dst.new ≡ when (legal n && (eqb (length src.now % 64) 0 && (eqb (length mask.now) (length src.now) && eqb (length dst.old) (length src.now)))) (xor_bytes (each_block (lent n t.now s.now u.now ks.now) (16 * n) (when own dst.old src.now)) mask.now) dst.old }
{
    if !are_groups(n, src.len(), mask.len(), dst.len()) {
        return;
    }
    let mut eight = eight_tables::zeros();
    eight_tables::fill(t, &mut eight);
    let there = spacing::spaced(s);
    let back = spacing::spaced(u);
    each_group(&eight, &there, &back, n, ks, own, src, mask, dst);
}
