// The sixteen rounds by a merged table, lent as it is or as eight tables, each rotated to a byte's place beforehand. The text is
// one for both and for all n; `rounds` calls it with 1, 2 and 4 and either form, so that the compiler makes each by itself.
//
// Byte b of word j of the permuted half-block is byte b of word (j + b) mod n, so no bytes are moved: the merged word for
// each byte is looked up where the byte stands.
#![tactic(auto)]

ghost use Rattle.std.specs.Prelude.{◌≡◌, ◌+◌, ◌*◌, ◌%◌, ◌<◌, ◌≤◌, ◌&&◌, ◌++◌, length, take, drop, bit_xor, slice_index};
ghost use Rattle.forms.specs.Lists.{when, words_from};
ghost use Rattle.forms.specs.Words.{byte, rotl};
ghost use Rattle.field.specs.Merged.{lookup};
ghost use Rattle.field.specs.Published as published;
ghost use Rattle.labyrinth.specs.Blocks.{plus, zip};
ghost use Rattle.labyrinth.specs.Cipher.{P, F};
ghost use Rattle.labyrinth.specs.Cipher.{round as once, rounds as iterations};
ghost use Rattle.labyrinth.specs.Keys.{half};
ghost use Rattle.labyrinth.specs.Refusals.{legal};
ghost use Rattle.labyrinth.specs.Working.{Size, block_in, laid, both, on_block, lendable, wide, table_words, share, lookup_in};

use labyrinth::Halves;

// Byte k of a word, as a place in a table.
fn place(w: u64, k: usize) -> usize
    requires { k < 8 }
    ensures { result ≡ byte w k }
{
    ((w >> (8 * k)) % 256) as usize
}

// A word rotated left by k bytes.
fn turn(w: u64, k: usize) -> u64
    requires { k < 8 }
    ensures { result ≡ rotl w (8 * k) }
{
    (w << (8 * k)) | (w >> ((64 - 8 * k) % 64))
}

// n words, with the key words from a place on added.
fn add_key(n: usize, x: &[u64; 4], ks: &[u64; 80], at: usize) -> [u64; 4]
    requires { (n ≤ 4) × (at + n ≤ 80) }
    ensures { take n result ≡ zip n plus (take n x.now) (words_from n at ks.now) }
{
    let mut y = [0u64; 4];
    // A `while` over n: still to be timed as a `for` (docs/DESIGN-PASS.md).
    let mut j = 0usize;
    while j < n {
        y[j] = std::num::wrapping_add_u64(x[j], ks[at + j]);
        j += 1;
    }
    y
}

// What byte k of a word adds, by the merged table or, with eight, by the eight tables.
fn merged_word(t: &[u64], eight: bool, w: u64, k: usize) -> u64
    requires { (k < 8) × (length t.now ≡ table_words eight) }
    ensures { result ≡ share eight t.now k (byte w k) }
{
    if eight {
        t[256 * k + place(w, k)]
    } else {
        turn(t[place(w, k)], k)
    }
}

// v XOR word j of the permuted, substituted and mixed half-block y. Two sums, since one long chain of XORs is slower.
fn f_word(t: &[u64], eight: bool, n: usize, y: &[u64; 4], j: usize, v: u64) -> u64
    requires { Size n × (j < n) × (length t.now ≡ table_words eight) }
    ensures { result ≡ bit_xor v (lookup_in eight t.now (slice_index (P n y.now) j)) }
{
    let mut even = v;
    let mut odd = 0u64;
    // A `while` over n: still to be timed as a `for` (docs/DESIGN-PASS.md).
    let mut p = 0usize;
    while p + n <= 4 {
        let mut d = 0usize;
        while d < n {
            let w = y[(j + d) % n];
            let k = p + d;
            even = even ^ merged_word(t, eight, w, k);
            odd = odd ^ merged_word(t, eight, w, k + 4);
            d += 1;
        }
        p += n;
    }
    even ^ odd
}

// One iteration, under the key words from a place on: new r is l XOR F(r), new l is r.
fn round(
    t: &[u64],
    eight: bool,
    c: &[u64; 4],
    n: usize,
    ks: &[u64; 80],
    at: usize,
    l: &mut [u64; 4],
    r: &mut [u64; 4],
)
    requires { Size n × (at + n ≤ 80) × (c.now ≡ published.constants) × (length l.old ≡ 4) × (length r.old ≡ 4) × (length t.now ≡ table_words eight) }
    ensures { both l.new r.new ≡ on_block n (once (lookup_in eight t.now) n (words_from n at ks.now)) (both l.old r.old) }
{
    let y = add_key(n, r, ks, at);
    // A `while` over n: still to be timed as a `for` (docs/DESIGN-PASS.md).
    let mut j = 0usize;
    while j < n {
        let v = f_word(t, eight, n, &y, j, l[j] ^ c[j]);
        l[j] = r[j];
        r[j] = v;
        j += 1;
    }
}

// All sixteen.
fn rounds_of(
    t: &[u64],
    eight: bool,
    c: &[u64; 4],
    n: usize,
    ks: &[u64; 80],
    l: &mut [u64; 4],
    r: &mut [u64; 4],
)
    requires { Size n × (c.now ≡ published.constants) × (length l.old ≡ 4) × (length r.old ≡ 4) × (length t.now ≡ table_words eight) }
    ensures { both l.new r.new ≡ on_block n (iterations (lookup_in eight t.now) n (λ i. half n ks.now (i + 2)) 16) (both l.old r.old) }
{
    // A `while` over n: still to be timed as a `for` (docs/DESIGN-PASS.md).
    let mut at = 2 * n;
    while at < 18 * n {
        round(t, eight, c, n, ks, at, l, r);
        at += n;
    }
}

// The sixteen rounds by a lent table t, under half-blocks 2 to 17 of a schedule, on n words of each half; the halves as they are
// for an illegal n and for a table in neither form.
pub fn rounds(t: &[u64], n: usize, ks: &[u64; 80], h: Halves) -> Halves
    ensures { result ≡ when (legal n && lendable (length t.now)) (laid n (iterations (lookup_in (wide t.now) t.now) n (λ i. half n ks.now (i + 2)) 16 (block_in n h)) h) h }
{
    let c = published::constants();
    let mut l = h.high;
    let mut r = h.low;
    if t.len() == 2048 {
        if n == 1 {
            rounds_of(t, true, &c, 1, ks, &mut l, &mut r);
        } else if n == 2 {
            rounds_of(t, true, &c, 2, ks, &mut l, &mut r);
        } else if n == 4 {
            rounds_of(t, true, &c, 4, ks, &mut l, &mut r);
        }
    } else if t.len() == 256 {
        if n == 1 {
            rounds_of(t, false, &c, 1, ks, &mut l, &mut r);
        } else if n == 2 {
            rounds_of(t, false, &c, 2, ks, &mut l, &mut r);
        } else if n == 4 {
            rounds_of(t, false, &c, 4, ks, &mut l, &mut r);
        }
    }
    Halves { high: l, low: r }
}

// A schedule with the key k in front, and zeros.
fn alone(k: [u64; 4]) -> [u64; 80]
    ensures { take 4 result ≡ k }
{
    let mut ks = [0u64; 80];
    ks[..4].copy_from_slice(&k);
    ks
}

// The new right half of one iteration under the key k, for the expansion of a key; r as it is for an illegal n.
pub fn iteration(t: &[u64; 256], n: usize, k: [u64; 4], l: [u64; 4], r: [u64; 4]) -> [u64; 4]
    ensures { result ≡ when (legal n) (zip n bit_xor (take n l) (F (lookup t.now) n (take n k) (take n r)) ++ drop n r) r }
{
    let c = published::constants();
    let ks = alone(k);
    let mut x = l;
    let mut y = r;
    match n {
        1 => round(t, false, &c, 1, &ks, 0, &mut x, &mut y),
        2 => round(t, false, &c, 2, &ks, 0, &mut x, &mut y),
        4 => round(t, false, &c, 4, &ks, 0, &mut x, &mut y),
        _ => {}
    }
    y
}
