// One block by the wider forms of what is lent, for runs whose blocks hang on each other: at N = 1 and 2, by the first four of eight tables, since a
// chain of look-ups is shorter so. At n = 4 a group is one block.
#![tactic(auto)]

ghost use Rattle.std.specs.Prelude.{◌≡◌, ◌+◌, ◌%◌, ◌<◌, ◌≤◌, true, [], ◌∷◌, bit_xor, slice_index};
ghost use Rattle.forms.specs.Lists.{tabulate, xor_sum, words_from};
ghost use Rattle.forms.specs.Words.{byte, rotl};
ghost use Rattle.field.specs.Published as published;
ghost use Rattle.labyrinth.specs.Blocks.{plus, minus, zip};
ghost use Rattle.labyrinth.specs.Cipher.{IMix, round as once, rounds as iterations};
ghost use Rattle.labyrinth.specs.Cipher as spec;
ghost use Rattle.labyrinth.specs.Keys.{half};
ghost use Rattle.labyrinth.specs.Working.{Size, share};
ghost use Rattle.labyrinth.specs.Groups.{in_memory, lookup_four, spaced_sub, enter_by, leave_by, line_by};

// A block of N words a half.
#[derive(Clone, Copy)]
struct Block<const N: usize> {
    high: [u64; N],
    low: [u64; N],
}

// What byte k of a word adds.
fn part(t: &[u64; 2048], w: u64, k: usize) -> u64
    ensures { result ≡ share true t.now k (byte w k) }
{
    group_rounds::part(t, k, word_bytes::byte_at(w, k))
}

// What byte k + 4 adds, still to be rotated by four bytes.
fn later(t: &[u64; 2048], w: u64, k: usize) -> u64
    requires { k < 4 }
    ensures { result ≡ share true t.now k (byte w (k + 4)) }
{
    group_rounds::part(t, k, word_bytes::byte_at(w, k + 4))
}

// v XOR what is looked up for a word whose bytes are those of two words in turn: at N = 1 the two are one word.
fn word(t: &[u64; 2048], a: u64, b: u64, v: u64) -> u64
    ensures { result ≡ bit_xor v (bit_xor (xor_sum 4 (λ k. share true t.now k (byte (slice_index (a ∷ b ∷ []) (k % 2)) k))) (rotl (xor_sum 4 (λ k. share true t.now k (byte (slice_index (a ∷ b ∷ []) (k % 2)) (k + 4)))) 32)) }
{
    (v ^ part(t, a, 0) ^ part(t, b, 1) ^ part(t, a, 2) ^ part(t, b, 3))
        ^ arithmetic::rotate_left(
            later(t, a, 0) ^ later(t, b, 1) ^ later(t, a, 2) ^ later(t, b, 3),
            32,
        )
}

// ---- the rounds

// The words of a half with those of a key added, which stand from a place on.
fn keyed<const N: usize>(ks: &[u64; 80], at: usize, x: [u64; N]) -> [u64; N]
    requires { at + N ≤ 80 }
    ensures { result ≡ zip N plus x.entry (words_from N at ks.now) }
{
    let mut z = [0u64; N];
    for j in 0..N {
        z[j] = x[j].wrapping_add(ks[at + j]);
    }
    z
}

// One iteration under the key words from a place on.
fn round<const N: usize>(
    t: &[u64; 2048],
    c: &[u64; 4],
    ks: &[u64; 80],
    at: usize,
    x: Block<N>,
) -> Block<N>
    requires { Size N × (N ≤ 2) × (at + N ≤ 80) × (c.now ≡ published.constants) }
    ensures { (result.high, result.low) ≡ once (lookup_four t.now) N (words_from N at ks.now) (x.entry.high, x.entry.low) }
{
    let z = keyed::<N>(ks, at, x.low);
    let mut low = [0u64; N];
    for j in 0..N {
        low[j] = word(t, z[j], z[(j + 1) % N], x.high[j] ^ c[j]);
    }
    Block { high: x.low, low }
}

// All sixteen.
fn rounds<const N: usize>(t: &[u64; 2048], ks: &[u64; 80], x: Block<N>) -> Block<N>
    requires { Size N × (N ≤ 2) }
    ensures { (result.high, result.low) ≡ iterations (lookup_four t.now) N (λ i. half N ks.now (i + 2)) 16 (x.entry.high, x.entry.low) }
{
    let c = published::constants();
    let mut y = x;
    for i in 0..16 {
        let z = round::<N>(t, &c, ks, (i + 2) * N, y);
        y = z;
    }
    y
}

// ---- the two ends

// A word on its way in: the key added, substituted, rotated left by turn.
fn word_in(s: &[u8; 2056], x: u64, k: u64, turn: usize) -> u64
    requires { turn < 64 }
    ensures { result ≡ rotl (spaced_sub s.now (plus x k)) turn }
{
    arithmetic::rotate_left(spacing::substitute(s, x.wrapping_add(k)), turn)
}

// And on its way out.
fn word_out(u: &[u8; 2056], x: u64, k: u64, turn: usize) -> u64
    requires { turn < 64 }
    ensures { result ≡ minus (spaced_sub u.now (rotl x turn)) k }
{
    spacing::substitute(u, arithmetic::rotate_left(x, turn)).wrapping_sub(k)
}

// Sigma.
fn sigma<const N: usize>(x: Block<N>) -> [u64; N]
    ensures { result ≡ tabulate N (spec.sigma (x.entry.high, x.entry.low)) }
{
    let mut d = [0u64; N];
    for j in 0..N {
        let w = x.high[j] ^ x.low[j];
        let first = j == 0;
        d[j] = if first {
            arithmetic::rotate_left(w, 28)
        } else {
            w
        };
    }
    d
}

// IMix.
fn imix<const N: usize>(x: Block<N>) -> Block<N>
    requires { Size N }
    ensures { (result.high, result.low) ≡ IMix N (x.entry.high, x.entry.low) }
{
    let d = sigma::<N>(x);
    let mut high = [0u64; N];
    let mut low = [0u64; N];
    for j in 0..N {
        let m = d[(j + N - 1) % N];
        high[j] = x.high[j] ^ m;
        low[j] = x.low[j] ^ m;
    }
    Block { high, low }
}

// IT.
fn enter<const N: usize>(s: &[u8; 2056], ks: &[u64; 80], x: Block<N>) -> Block<N>
    requires { Size N }
    ensures { (result.high, result.low) ≡ enter_by (spaced_sub s.now) N (half N ks.now 1, half N ks.now 0) (x.entry.high, x.entry.low) }
{
    let mut high = [0u64; N];
    let mut low = [0u64; N];
    for j in 0..N {
        low[j] = word_in(s, x.low[j], ks[j], 62);
        high[j] = word_in(s, x.high[j], ks[N + j], 2);
    }
    imix::<N>(Block { high, low })
}

// FT.
fn leave<const N: usize>(u: &[u8; 2056], ks: &[u64; 80], x: Block<N>) -> Block<N>
    requires { Size N }
    ensures { (result.high, result.low) ≡ leave_by (spaced_sub u.now) N (half N ks.now 19, half N ks.now 18) (x.entry.high, x.entry.low) }
{
    let y = imix::<N>(x);
    let mut high = [0u64; N];
    let mut low = [0u64; N];
    for j in 0..N {
        low[j] = word_out(u, y.low[j], ks[18 * N + j], 2);
        high[j] = word_out(u, y.high[j], ks[19 * N + j], 62);
    }
    Block { high, low }
}

// ---- the block

// The halves change places.
fn exchanged<const N: usize>(x: Block<N>) -> Block<N>
    ensures { (result.high, result.low) ≡ spec.exchange (x.entry.high, x.entry.low) }
{
    let high = x.low;
    let low = x.high;
    Block { high, low }
}

// A block of N words a half.
fn mapped<const N: usize>(
    t: &[u64; 2048],
    s: &[u8; 2056],
    u: &[u8; 2056],
    ks: &[u64; 80],
    x: Block<N>,
) -> Block<N>
    requires { Size N × (N ≤ 2) }
    ensures { (result.high, result.low) ≡ line_by (spaced_sub s.now) (spaced_sub u.now) (lookup_four t.now) N ks.now (x.entry.high, x.entry.low) }
{
    let y = rounds::<N>(t, ks, enter::<N>(s, ks, x));
    leave::<N>(u, ks, exchanged::<N>(y))
}

// One of n = 1, its words as in memory, the low half and then the high one: Rattle has no array of 2N words for a const parameter N.
pub fn block_1(
    t: &[u64; 2048],
    s: &[u8; 2056],
    u: &[u8; 2056],
    ks: &[u64; 80],
    x: [u64; 2],
) -> [u64; 2]
    ensures { result ≡ in_memory 1 (line_by (spaced_sub s.now) (spaced_sub u.now) (lookup_four t.now) 1 ks.now) x }
{
    let y = mapped::<1>(
        t,
        s,
        u,
        ks,
        Block {
            high: [x[1]],
            low: [x[0]],
        },
    );
    [y.low[0], y.high[0]]
}

// And one of n = 2.
pub fn block_2(
    t: &[u64; 2048],
    s: &[u8; 2056],
    u: &[u8; 2056],
    ks: &[u64; 80],
    x: [u64; 4],
) -> [u64; 4]
    ensures { result ≡ in_memory 2 (line_by (spaced_sub s.now) (spaced_sub u.now) (lookup_four t.now) 2 ks.now) x }
{
    let y = mapped::<2>(
        t,
        s,
        u,
        ks,
        Block {
            high: [x[2], x[3]],
            low: [x[0], x[1]],
        },
    );
    [y.low[0], y.low[1], y.high[0], y.high[1]]
}
