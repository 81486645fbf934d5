// Enciphering and deciphering a block by the substitution and the matrix, under a working key. No merged table occurs here.
#![tactic(auto)]

ghost use Rattle.std.specs.Prelude.{◌≡◌, length};
ghost use Rattle.forms.specs.Refusals.{outcome};
ghost use Rattle.labyrinth.specs.Cipher.{article};
ghost use Rattle.labyrinth.specs.Keys.{E, U};
ghost use Rattle.labyrinth.specs.Refusals.{block_refusal, under_key};
ghost use Rattle.labyrinth.specs.Working.{matrix_parts, line_bytes, way};
ghost use Rattle.sets.specs.Sets.{loaded, parts_in};

use labyrinth::WorkingKey;
use sets::Store;

// Maps a block under a schedule, by a substitution s, its inverse u and a matrix m.
fn apply_matrix(
    m: [[u8; 8]; 8],
    s: &[u8; 256],
    u: &[u8; 256],
    n: usize,
    ks: &[u64; 80],
    src: &[u8],
    dst: &mut [u8],
) -> u8
    ensures number { result ≡ block_refusal n (length src.now) (length dst.old) }
    ensures block { dst.new ≡ outcome result (line_bytes (matrix_parts s.now u.now m) n ks.now src.now) dst.old }
{
    let number = cipher_refusals::block_refusal(n, src.len(), dst.len());
    if number != 0 {
        return number;
    }
    let x = matrix_rounds::rounds(s, m, n, ks, transforms::enter(s, n, ks, src));
    transforms::leave(u, n, ks, labyrinth::exchange(x), dst);
    0
}

// One way or the other by the published matrix.
fn by_published(k: WorkingKey, back: bool, src: &[u8], dst: &mut [u8]) -> u8
    ensures number { result ≡ block_refusal k.n (length src.now) (length dst.old) }
    ensures block { dst.new ≡ outcome result (way article back k.n k.words src.now) dst.old }
{
    let n = k.n;
    let m = matrices::matrix(published::row());
    let s = published::sbox();
    let u = published::sbox_inverse();
    let ks = schedule::schedule(k, back);
    apply_matrix(m, &s, &u, n, &ks, src, dst)
}

// One way or the other by the matrix of the set that the key names: 15 if it isn't loaded, right after 1. Set 0 goes its own way, and reads
// no store.
fn by_matrix(store: Store, k: WorkingKey, back: bool, src: &[u8], dst: &mut [u8]) -> u8
    ensures number { result ≡ under_key k.n (loaded store k.set) (block_refusal k.n (length src.now) (length dst.old)) }
    ensures block { dst.new ≡ outcome result (way (parts_in store k.set) back k.n k.words src.now) dst.old }
{
    if k.set == 0 {
        return by_published(k, back, src, dst);
    }
    let n = k.n;
    let number = labyrinth::under_key(n, stores::is_loaded(store, k.set), 0);
    if number != 0 {
        return number;
    }
    let v = stores::set_in(store, k.set);
    let s = v.substitution;
    let g = v.row;
    let m = matrices::matrix(g);
    let u = substitutions::inverse(&s);
    let keys = schedule::schedule(k, back);
    apply_matrix(m, &s, &u, n, &keys, src, dst)
}

// Enciphers a block by the matrix.
pub fn encipher_by_matrix(store: Store, k: WorkingKey, src: &[u8], dst: &mut [u8]) -> u8
    ensures number { result ≡ under_key k.n (loaded store k.set) (block_refusal k.n (length src.now) (length dst.old)) }
    ensures block { dst.new ≡ outcome result (E (parts_in store k.set) k.n k.words src.now) dst.old }
{
    by_matrix(store, k, false, src, dst)
}

// Deciphers a block by the matrix.
pub fn decipher_by_matrix(store: Store, k: WorkingKey, src: &[u8], dst: &mut [u8]) -> u8
    ensures number { result ≡ under_key k.n (loaded store k.set) (block_refusal k.n (length src.now) (length dst.old)) }
    ensures block { dst.new ≡ outcome result (U (parts_in store k.set) k.n k.words src.now) dst.old }
{
    by_matrix(store, k, true, src, dst)
}
