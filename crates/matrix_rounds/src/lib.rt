// The sixteen rounds by the substitution and a matrix, as the definition has them: no merged table, and one text for all n.
#![tactic(auto)]

ghost use Rattle.std.specs.Prelude.{◌≡◌, ◌+◌, ◌<◌, ◌≤◌, length, take, slice_index};
ghost use Rattle.forms.specs.Lists.{when, words_from};
ghost use Rattle.forms.specs.Words.{each_byte};
ghost use Rattle.field.specs.Substitution.{sub};
ghost use Rattle.field.specs.Mixing.{mix_by};
ghost use Rattle.labyrinth.specs.Blocks.{plus, zip};
ghost use Rattle.labyrinth.specs.Cipher.{P};
ghost use Rattle.labyrinth.specs.Cipher.{round as once, rounds as iterations};
ghost use Rattle.labyrinth.specs.Keys.{half};
ghost use Rattle.labyrinth.specs.Refusals.{legal};
ghost use Rattle.labyrinth.specs.Working.{Size, block_in, laid, both, on_block};

use labyrinth::Halves;

// Word j of the permuted sum of the half-block x and the key words from a place on.
fn perm_word(n: usize, x: &[u64; 4], ks: &[u64; 80], at: usize, j: usize) -> u64
    requires { Size n × (at + n ≤ 80) × (j < n) }
    ensures { result ≡ slice_index (P n (zip n plus (take n x.now) (words_from n at ks.now))) j }
{
    let mut r = 0u64;
    for b in 0..8 {
        let i = (j + b) % n;
        let y = x[i].wrapping_add(ks[at + i]);
        let v = u64::from(word_bytes::byte_at(y, b));
        r = (v << (8 * b)) | r;
    }
    r
}

// One iteration, under the key words from a place on: new r is l XOR F(r), new l is r.
fn round(
    s: &[u8; 256],
    m: [[u8; 8]; 8],
    n: usize,
    ks: &[u64; 80],
    at: usize,
    l: &mut [u64; 4],
    r: &mut [u64; 4],
)
    requires { Size n × (at + n ≤ 80) × (length l.old ≡ 4) × (length r.old ≡ 4) }
    ensures { both l.new r.new ≡ on_block n (once (λ w. mix_by m (each_byte (sub s.now) w)) n (words_from n at ks.now)) (both l.old r.old) }
{
    let c = published::constants();
    let x = *r;
    for j in 0..n {
        let w = matrices::mix_by(m, mixing::substitute_bytes(s, perm_word(n, &x, ks, at, j)));
        let v = (l[j] ^ c[j]) ^ w;
        l[j] = r[j];
        r[j] = v;
    }
}

// The sixteen rounds by the substitution s and the matrix m, under half-blocks 2 to 17 of a schedule, on n words of each half; the
// halves as they are for an illegal n.
pub fn rounds(s: &[u8; 256], m: [[u8; 8]; 8], n: usize, ks: &[u64; 80], h: Halves) -> Halves
    ensures { result ≡ when (legal n) (laid n (iterations (λ w. mix_by m (each_byte (sub s.now) w)) n (λ i. half n ks.now (i + 2)) 16 (block_in n h)) h) h }
{
    if !labyrinth::is_legal(n) {
        return h;
    }
    let mut high = h.high;
    let mut low = h.low;
    for i in 2..18 {
        round(s, m, n, ks, i * n, &mut high, &mut low);
    }
    Halves { high, low }
}
