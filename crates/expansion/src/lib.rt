// Expansion of a key to a working key. The register is document 01's word for k_KS, the key of the
// schedule's own iterations.
//
// The words grow in one array of 32 that starts as zeros, so the unused words are zero at the end.
#![tactic(auto)]

ghost use Rattle.std.specs.Prelude.{◌≡◌, ℕ, ◌+◌, ◌-◌, ◌*◌, ◌<◌, ◌≤◌, List, [], ◌++◌, length, take, slice_index};
ghost use Rattle.forms.specs.Lists.{tabulate, xor_sum};
ghost use Rattle.forms.specs.Words.{words};
ghost use Rattle.field.specs.Merged.{lookup};
ghost use Rattle.labyrinth.specs.Cipher.{article};
ghost use Rattle.labyrinth.specs.Keys.{half, register, delta, expanded_words};
ghost use Rattle.labyrinth.specs.Refusals.{expand_refusal, under_length, expansion, padded};
ghost use Rattle.labyrinth.specs.Working.{Size, Taken, four_words};
ghost use Rattle.sets.specs.Sets.{loaded, parts_in};

use labyrinth::{Expanded, WorkingKey};
use sets::Store;

// The m words of a key, with zeros behind them.
fn load_key(m: usize, key: &[u8]) -> [u64; 32]
    requires { (m ≤ 16) × (length key.now ≡ 8 * m) }
    ensures { result ≡ padded (words m key.now) }
{
    let mut w = [0u64; 32];
    for i in 0..m {
        w[i] = buffers::load_word(key, 8 * i);
    }
    w
}

// The XOR of word i of the first l half-blocks.
fn xor_column(n: usize, l: usize, w: &[u64; 32], i: usize) -> u64
    requires { Size n × (l ≤ 4) × (i < n) }
    ensures { result ≡ xor_sum l (λ j. slice_index w.now (j * n + i)) }
{
    let mut r = 0u64;
    for j in 0..l {
        r = r ^ w[j * n + i];
    }
    r
}

// The register as it is first.
fn first_register(n: usize, l: usize, w: &[u64; 32]) -> [u64; 4]
    requires { Size n × (l ≤ 4) }
    ensures { result ≡ four_words (register n l w.now) }
{
    let mut g = [0u64; 4];
    for i in 0..n {
        g[i] = arithmetic::rotate_left(xor_column(n, l, w, i), 29);
    }
    g
}

// A step of the register.
fn step(n: usize, g: [u64; 4]) -> [u64; 4]
    requires { n ≤ 4 }
    ensures { result ≡ four_words (delta n (take n g)) }
{
    let mut r = [0u64; 4];
    for i in 0..n {
        r[i] = g[i].wrapping_add(0x1084210842108421) ^ 0x4444444444444444;
    }
    r
}

// Half-block k_j.
fn half_of(n: usize, w: &[u64; 32], j: usize) -> [u64; 4]
    requires { Size n × (j < 8) }
    ensures { result ≡ four_words (half n w.now j) }
{
    let mut r = [0u64; 4];
    r[..n].copy_from_slice(&w[j * n..j * n + n]);
    r
}

// Lays half-block k_j behind those before it.
fn put(n: usize, w: &mut [u64; 32], j: usize, y: &[u64; 4])
    requires { Size n × (j < 8) }
    ensures { (ks : List ℕ) → length ks ≡ j * n → w.old ≡ padded ks → w.new ≡ padded (ks ++ tabulate n (λ i. slice_index y.now i)) }
{
    w[j * n..j * n + n].copy_from_slice(&y[..n]);
}

// The working key's words from those of the key: for each j from l on the register steps, and k_j is F of k_(j-1) under it,
// XOR k_(j-l).
fn grow(t: &[u64; 256], n: usize, l: usize, key: [u64; 32]) -> [u64; 32]
    requires { Size n × (2 ≤ l) × (l ≤ 4) }
    ensures { (bytes : List ℕ) → key ≡ padded (words (n * l) bytes) → result ≡ padded (expanded_words (lookup t.now) n l bytes) }
{
    let mut w = key;
    let mut g = first_register(n, l, &w);
    for j in l..8 {
        let stepped = step(n, g);
        let y = table_rounds::iteration(
            t,
            n,
            stepped,
            half_of(n, &w, j - l),
            half_of(n, &w, j - 1),
        );
        g = stepped;
        put(n, &mut w, j, &y);
    }
    w
}

// A refused key.
fn refused(number: u8) -> Expanded
    ensures { result ≡ record { number = number; key = record { n = 0; set = 0; words = padded [] } } }
{
    Expanded {
        number: number,
        key: WorkingKey {
            n: 0,
            set: 0,
            words: [0; 32],
        },
    }
}

// Expands a key that is taken, with the merged table lent.
fn expand_by(t: &[u64; 256], n: usize, l: usize, set: usize, key: &[u8]) -> Expanded
    requires { Taken n l (length key.now) }
    ensures { result ≡ record { number = 0; key = record { n = n; set = set; words = padded (expanded_words (lookup t.now) n l key.now) } } }
{
    let w = grow(t, n, l, load_key(n * l, key));
    Expanded {
        number: 0,
        key: WorkingKey {
            n: n,
            set: set,
            words: w,
        },
    }
}

// Expands a key of l half-blocks to a working key of size n, for the published set: 1 if n isn't 1, 2 or 4, 2 if l isn't 2, 3 or 4, 3 if the
// key isn't 8nl bytes.
pub fn expand_published(n: usize, l: usize, key: &[u8]) -> Expanded
    ensures { result ≡ expansion article.SM 0 n l key.now (expand_refusal n l (length key.now)) }
{
    let number = cipher_refusals::expand_refusal(n, l, key.len());
    if number != 0 {
        return refused(number);
    }
    let t = tables::merged_table();
    expand_by(&t, n, l, 0, key)
}

// Expands a key for a set of a store, which the working key then names: 15 if it isn't loaded, right after 2. Set 0 goes its own way, and
// reads no store.
pub fn expand(store: Store, n: usize, l: usize, set: usize, key: &[u8]) -> Expanded
    ensures { result ≡ expansion (parts_in store set).SM set n l key.now (under_length n l (loaded store set) (expand_refusal n l (length key.now))) }
{
    if set == 0 {
        return expand_published(n, l, key);
    }
    let own = cipher_refusals::expand_refusal(n, l, key.len());
    let number = cipher_refusals::under_length(n, l, stores::is_loaded(store, set), own);
    if number != 0 {
        return refused(number);
    }
    let v = stores::set_in(store, set);
    let s = v.substitution;
    let g = v.row;
    let t = rows::table_of(g, &s);
    expand_by(&t, n, l, set, key)
}
