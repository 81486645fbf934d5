// The two ends of the cipher for a group of blocks side by side: IT of eight words, and FT to them, by substitutions that are spaced out.
//
// N is a const parameter: so each N has a machine text of its own, and no place is computed as it runs.
#![tactic(auto)]

ghost use Rattle.std.specs.Prelude.{◌≡◌, ◌+◌, ◌-◌, ◌*◌, ◌/◌, ◌%◌, ◌<◌, ◌≤◌, slice_index, replicate};
ghost use Rattle.forms.specs.Lists.{tabulate, when};
ghost use Rattle.forms.specs.Words.{rotl};
ghost use Rattle.labyrinth.specs.Blocks.{plus, minus, each};
ghost use Rattle.labyrinth.specs.Cipher.{IMix};
ghost use Rattle.labyrinth.specs.Cipher as spec;
ghost use Rattle.labyrinth.specs.Keys.{half};
ghost use Rattle.labyrinth.specs.Refusals.{legal};
ghost use Rattle.labyrinth.specs.Working.{Size, both};
ghost use Rattle.labyrinth.specs.Groups.{block_of, besides, apart, joined, spaced_sub, enter_by, leave_by};

use labyrinth::Halves;

// ---- IMix

// Sigma of each block.
fn sigma<const N: usize>(h: &Halves) -> [u64; 4]
    requires { Size N }
    ensures { result ≡ tabulate 4 (λ j. spec.sigma (block_of N (j / N) h.now) (j % N)) }
{
    let mut d = [0u64; 4];
    for j in 0..4 {
        let x = h.high[j] ^ h.low[j];
        let first = j % N == 0;
        d[j] = if first {
            arithmetic::rotate_left(x, 28)
        } else {
            x
        };
    }
    d
}

// IMix of each block.
fn imix<const N: usize>(h: Halves) -> Halves
    requires { Size N }
    ensures { result ≡ besides N (IMix N) h }
{
    let d = sigma::<N>(&h);
    let mut high = [0u64; 4];
    let mut low = [0u64; 4];
    for i in 0..4 {
        let m = d[i - i % N + (i + N - 1) % N];
        high[i] = h.high[i] ^ m;
        low[i] = h.low[i] ^ m;
    }
    Halves { high, low }
}

// ---- IT

// The halves that stand so many words behind their blocks' beginnings, 0 or N, rotated left by turn.
fn taken<const N: usize>(behind: usize, turn: usize, x: &[u64; 8]) -> [u64; 4]
    requires { Size N × (behind ≤ N) × (turn < 64) }
    ensures { result ≡ tabulate 4 (λ j. rotl (slice_index x.now (2 * j - j % N + behind)) turn) }
{
    let mut r = [0u64; 4];
    for j in 0..4 {
        r[j] = arithmetic::rotate_left(x[2 * j - j % N + behind], turn);
    }
    r
}

// The words with the key added, substituted.
fn keyed<const N: usize>(s: &[u8; 2056], ks: &[u64; 80], x: [u64; 8]) -> [u64; 8]
    requires { Size N }
    ensures { result ≡ tabulate 8 (λ i. spaced_sub s.now (plus (slice_index x i) (slice_index ks.now (i % (2 * N))))) }
{
    let mut y = [0u64; 8];
    for i in 0..8 {
        y[i] = spacing::substitute(s, x[i].wrapping_add(ks[i % (2 * N)]));
    }
    y
}

// IT; zeros for an illegal N.
pub fn enter<const N: usize>(s: &[u8; 2056], ks: &[u64; 80], x: [u64; 8]) -> Halves
    ensures { result ≡ when (legal N) (besides N (enter_by (spaced_sub s.now) N (half N ks.now 1, half N ks.now 0)) (apart N x)) (both (replicate 4 0) (replicate 4 0)) }
{
    if !labyrinth::is_legal(N) {
        return Halves {
            high: [0; 4],
            low: [0; 4],
        };
    }
    let y = keyed::<N>(s, ks, x);
    imix::<N>(Halves {
        high: taken::<N>(N, 2, &y),
        low: taken::<N>(0, 62, &y),
    })
}

// ---- FT

// The halves with their rotations undone, as words in memory.
fn laid<const N: usize>(h: Halves) -> [u64; 8]
    requires { Size N }
    ensures { result ≡ joined N (both (each 4 (λ w. rotl w 62) h.high) (each 4 (λ w. rotl w 2) h.low)) }
{
    let mut x = [0u64; 8];
    for j in 0..4 {
        let at = 2 * j - j % N;
        x[at] = arithmetic::rotate_left(h.low[j], 2);
        x[at + N] = arithmetic::rotate_left(h.high[j], 62);
    }
    x
}

// The words substituted back, with the key subtracted.
fn unkeyed<const N: usize>(u: &[u8; 2056], ks: &[u64; 80], x: [u64; 8]) -> [u64; 8]
    requires { Size N }
    ensures { result ≡ tabulate 8 (λ i. minus (spaced_sub u.now (slice_index x i)) (slice_index ks.now (18 * N + i % (2 * N)))) }
{
    let mut y = [0u64; 8];
    for i in 0..8 {
        y[i] = spacing::substitute(u, x[i]).wrapping_sub(ks[18 * N + i % (2 * N)]);
    }
    y
}

// FT; zeros for an illegal N.
pub fn leave<const N: usize>(u: &[u8; 2056], ks: &[u64; 80], h: Halves) -> [u64; 8]
    ensures { result ≡ when (legal N) (joined N (besides N (leave_by (spaced_sub u.now) N (half N ks.now 19, half N ks.now 18)) h)) (replicate 8 0) }
{
    if !labyrinth::is_legal(N) {
        return [0; 8];
    }
    unkeyed::<N>(u, ks, laid::<N>(imix::<N>(h)))
}
