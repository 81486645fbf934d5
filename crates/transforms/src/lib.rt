// The two ends of the cipher: the initial transformation IT, from a block's bytes, and the final
// transformation FT, to them. The text is one for all n. The functions that dispatch on n call it
// with 1, 2 and 4, so that the compiler makes each size by itself.
#![tactic(auto)]

ghost use Rattle.std.specs.Prelude.{◌≡◌, ◌+◌, ◌*◌, ◌<◌, ◌≤◌, ◌&&◌, [], ◌++◌, length, take, drop, ◌==◌};
ghost use Rattle.forms.specs.Lists.{tabulate, when, words_from};
ghost use Rattle.forms.specs.Words.{rotl, each_byte, words, bytes};
ghost use Rattle.field.specs.Substitution.{sub};
ghost use Rattle.labyrinth.specs.Blocks.{plus, minus, each, zip, load, store};
ghost use Rattle.labyrinth.specs.Cipher.{IMix, IT, FT};
ghost use Rattle.labyrinth.specs.Cipher as spec;
ghost use Rattle.labyrinth.specs.Keys.{half};
ghost use Rattle.labyrinth.specs.Refusals.{legal};
ghost use Rattle.labyrinth.specs.Working.{Size, four_words, held, block_in, fits};

use labyrinth::Halves;

// ---- IMix

// Sigma of two halves: the XOR of their words, word 0 of it rotated.
fn sigma(n: usize, l: [u64; 4], r: [u64; 4]) -> [u64; 4]
    requires { Size n }
    ensures { result ≡ four_words (tabulate n (spec.sigma (take n l, take n r))) }
{
    let mut d = [0u64; 4];
    for j in 0..n {
        d[j] = l[j] ^ r[j];
    }
    d[0] = arithmetic::rotate_left(d[0], 28);
    d
}

// IMix of n words of two halves.
fn imix(n: usize, l: [u64; 4], r: [u64; 4]) -> Halves
    requires { Size n }
    ensures { result ≡ held (IMix n (take n l, take n r)) }
{
    let d = sigma(n, l, r);
    let mut high = [0u64; 4];
    let mut low = [0u64; 4];
    for i in 0..n {
        let m = d[(i + n - 1) % n];
        high[i] = l[i] ^ m;
        low[i] = r[i] ^ m;
    }
    Halves { high, low }
}

// ---- IT

// Steps 1 to 3 of IT on one half: the words at a place of a block, with n key words from k on, rotated left by turn.
fn key_in(
    s: &[u8; 256],
    n: usize,
    ks: &[u64; 80],
    k: usize,
    turn: usize,
    src: &[u8],
    at: usize,
) -> [u64; 4]
    requires { (n ≤ 4) × (k + n ≤ 80) × (turn < 64) × (at + 8 * n ≤ length src.now) }
    ensures { result ≡ four_words (each n (λ w. rotl w turn) (each n (each_byte (sub s.now)) (zip n plus (words n (drop at src.now)) (words_from n k ks.now)))) }
{
    let mut x = [0u64; 4];
    for j in 0..n {
        let w = buffers::load_word(src, at + 8 * j).wrapping_add(ks[k + j]);
        x[j] = arithmetic::rotate_left(mixing::substitute_bytes(s, w), turn);
    }
    x
}

// IT of a block, whatever legal n is.
fn enter_any(s: &[u8; 256], n: usize, ks: &[u64; 80], src: &[u8]) -> Halves
    requires { Size n × (length src.now ≡ 16 * n) }
    ensures { result ≡ held (IT (sub s.now) n (half n ks.now 1, half n ks.now 0) (load n src.now)) }
{
    match n {
        1 => {
            let low = key_in(s, 1, ks, 0, 62, src, 0);
            let high = key_in(s, 1, ks, 1, 2, src, 8);
            imix(1, high, low)
        }
        2 => {
            let low = key_in(s, 2, ks, 0, 62, src, 0);
            let high = key_in(s, 2, ks, 2, 2, src, 16);
            imix(2, high, low)
        }
        _ => {
            let low = key_in(s, 4, ks, 0, 62, src, 0);
            let high = key_in(s, 4, ks, 4, 2, src, 32);
            imix(4, high, low)
        }
    }
}

// A block's length is k.
fn fit(n: usize, k: usize) -> bool
    ensures { result ≡ (legal n && k == 16 * n) }
{
    match n {
        1 => k == 16,
        2 => k == 32,
        4 => k == 64,
        _ => false,
    }
}

// IT of a block of bytes, by the substitution s, under the schedule's first two half-blocks; zeros for an illegal n or
// another length.
pub fn enter(s: &[u8; 256], n: usize, ks: &[u64; 80], src: &[u8]) -> Halves
    ensures { result ≡ held (when (fits n src.now) (IT (sub s.now) n (half n ks.now 1, half n ks.now 0) (load n src.now)) ([], [])) }
{
    if fit(n, src.len()) {
        enter_any(s, n, ks, src)
    } else {
        Halves {
            high: [0; 4],
            low: [0; 4],
        }
    }
}

// ---- FT

// Steps 2 to 4 of FT on one half, to the n words at a place of a block.
fn key_out(
    u: &[u8; 256],
    n: usize,
    ks: &[u64; 80],
    k: usize,
    turn: usize,
    x: &[u64; 4],
    dst: &mut [u8],
    at: usize,
)
    requires { (n ≤ 4) × (k + n ≤ 80) × (turn < 64) × (at + 8 * n ≤ length dst.old) }
    ensures { dst.new ≡ take at dst.old ++ (bytes n (zip n minus (each n (each_byte (sub u.now)) (each n (λ w. rotl w turn) (take n x.now))) (words_from n k ks.now)) ++ drop (at + 8 * n) dst.old) }
{
    for j in 0..n {
        let w = mixing::substitute_bytes(u, arithmetic::rotate_left(x[j], turn));
        buffers::store_word(dst, at + 8 * j, w.wrapping_sub(ks[k + j]));
    }
}

// FT to a block, whatever legal n is.
fn leave_any(u: &[u8; 256], n: usize, ks: &[u64; 80], h: Halves, dst: &mut [u8])
    requires { Size n × (length dst.old ≡ 16 * n) }
    ensures { dst.new ≡ store n (FT (sub u.now) n (half n ks.now 19, half n ks.now 18) (block_in n h)) }
{
    match n {
        1 => {
            let x = imix(1, h.high, h.low);
            key_out(u, 1, ks, 18, 2, &x.low, dst, 0);
            key_out(u, 1, ks, 19, 62, &x.high, dst, 8);
        }
        2 => {
            let x = imix(2, h.high, h.low);
            key_out(u, 2, ks, 36, 2, &x.low, dst, 0);
            key_out(u, 2, ks, 38, 62, &x.high, dst, 16);
        }
        _ => {
            let x = imix(4, h.high, h.low);
            key_out(u, 4, ks, 72, 2, &x.low, dst, 0);
            key_out(u, 4, ks, 76, 62, &x.high, dst, 32);
        }
    }
}

// FT to a block of bytes, by the inverse substitution u, under the schedule's last two half-blocks; nothing for an illegal n
// or another length.
pub fn leave(u: &[u8; 256], n: usize, ks: &[u64; 80], h: Halves, dst: &mut [u8])
    ensures { dst.new ≡ when (fits n dst.old) (store n (FT (sub u.now) n (half n ks.now 19, half n ks.now 18) (block_in n h))) dst.old }
{
    if fit(n, dst.len()) {
        leave_any(u, n, ks, h, dst)
    }
}
