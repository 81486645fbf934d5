// The sixteen rounds of a group, by the eight tables: four blocks side by side at N = 1, two at N = 2, one at N = 4.
//
// N is a const parameter: so each N has a machine text of its own, whose words stand in registers. With N as an argument the compiler kept
// them in memory, which took up to four times as long.
#![tactic(auto)]

ghost use Rattle.std.specs.Prelude.{◌≡◌, ◌+◌, ◌*◌, ◌/◌, ◌%◌, ◌<◌, ◌≤◌, true, [], ◌∷◌, bit_xor, slice_index};
ghost use Rattle.forms.specs.Lists.{tabulate, when, xor_sum, words_from};
ghost use Rattle.forms.specs.Words.{byte};
ghost use Rattle.field.specs.Published as published;
ghost use Rattle.labyrinth.specs.Blocks.{plus};
ghost use Rattle.labyrinth.specs.Cipher.{round as once, rounds as iterations};
ghost use Rattle.labyrinth.specs.Keys.{half};
ghost use Rattle.labyrinth.specs.Refusals.{legal};
ghost use Rattle.labyrinth.specs.Working.{Size, both, share, lookup_in};
ghost use Rattle.labyrinth.specs.Groups.{besides};

use labyrinth::Halves;

// What a byte adds, by table k of the eight; 0 for k past them.
pub fn part(t: &[u64; 2048], k: usize, b: u8) -> u64
    ensures { result ≡ share true t.now k b }
{
    if 8 <= k {
        return 0;
    }
    t[256 * k + usize::from(b)]
}

// What byte k of a word adds.
fn part_of(t: &[u64; 2048], w: u64, k: usize) -> u64
    ensures { result ≡ share true t.now k (byte w k) }
{
    part(t, k, word_bytes::byte_at(w, k))
}

// v XOR what the bytes of four words add, byte k of word k mod 4: at N = 1 the four are one word, at N = 2 two words in turn.
fn word(t: &[u64; 2048], a: u64, b: u64, c: u64, d: u64, v: u64) -> u64
    ensures { result ≡ bit_xor v (xor_sum 8 (λ k. share true t.now k (byte (slice_index (a ∷ b ∷ c ∷ d ∷ []) (k % 4)) k))) }
{
    (v ^ part_of(t, a, 0) ^ part_of(t, b, 1) ^ part_of(t, c, 2) ^ part_of(t, d, 3))
        ^ (part_of(t, a, 4) ^ part_of(t, b, 5) ^ part_of(t, c, 6) ^ part_of(t, d, 7))
}

// Each block's words with its key words added, which stand from a place on.
fn keyed<const N: usize>(ks: &[u64; 80], at: usize, r: &[u64; 4]) -> [u64; 4]
    requires { Size N × (at + N ≤ 80) }
    ensures { result ≡ tabulate 4 (λ i. plus (slice_index r.now i) (slice_index ks.now (at + i % N))) }
{
    let mut z = [0u64; 4];
    for i in 0..4 {
        z[i] = r[i].wrapping_add(ks[at + i % N]);
    }
    z
}

// The new right half of one iteration: each word of l XOR F of its block in r. The new left half is r.
fn turned<const N: usize>(
    t: &[u64; 2048],
    c: &[u64; 4],
    ks: &[u64; 80],
    at: usize,
    l: &[u64; 4],
    r: &[u64; 4],
) -> [u64; 4]
    requires { Size N × (at + N ≤ 80) × (c.now ≡ published.constants) }
    ensures { both r.now result ≡ besides N (once (lookup_in true t.now) N (words_from N at ks.now)) (both l.now r.now) }
{
    let z = keyed::<N>(ks, at, r);
    let mut y = [0u64; 4];
    for i in 0..4 {
        let b = i - i % N;
        let v = l[i] ^ c[i % N];
        y[i] = word(
            t,
            z[i],
            z[b + (i + 1) % N],
            z[b + (i + 2) % N],
            z[b + (i + 3) % N],
            v,
        );
    }
    y
}

// All sixteen; h itself for an illegal N.
pub fn rounds<const N: usize>(t: &[u64; 2048], ks: &[u64; 80], h: Halves) -> Halves
    ensures { result ≡ when (legal N) (besides N (iterations (lookup_in true t.now) N (λ i. half N ks.now (i + 2)) 16) h) h }
{
    if !labyrinth::is_legal(N) {
        return h;
    }
    let c = published::constants();
    let mut l = h.high;
    let mut r = h.low;
    for i in 0..16 {
        let y = turned::<N>(t, &c, ks, (i + 2) * N, &l, &r);
        l = r;
        r = y;
    }
    Halves { high: l, low: r }
}
