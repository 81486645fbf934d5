// Cipher block chaining (NIST SP 800-38A, section 6.2): a run opened where it stands, under a working key.
//
// An opened block is written over its sealed one, which the next block needs. So a stretch of at most 8,192 bytes is copied, and opened from
// the copy to its place; the copy's last block is what the next stretch is opened after.
#![tactic(auto)]

ghost use Rattle.std.specs.Prelude.{◌≡◌, ◌-◌, ◌*◌, ◌%◌, ◌<◌, ◌≤◌, min, length, drop};
ghost use Rattle.forms.specs.Refusals.{outcome};
ghost use Rattle.labyrinth.specs.Cipher.{article};
ghost use Rattle.labyrinth.specs.Keys.{U};
ghost use Rattle.labyrinth.specs.Refusals.{under_key};
ghost use Rattle.labyrinth.specs.Working.{Size};
ghost use Rattle.labyrinth.specs.Lent.{lent};
ghost use Rattle.sets.specs.Sets.{loaded, parts_in};
ghost use Rattle.modes.specs.Cbc.{cbc_open};
ghost use Rattle.modes.specs.Refusals.{cbc_refusal};

use labyrinth::WorkingKey;
use sets::Store;

// Room for a stretch.
fn room() -> [u8; 8192]
    ensures { 8192 ≡ length result }
{
    [0; 8192]
}

// Opens a stretch where it stands, after the block that chain holds, and leaves the stretch's last sealed block in chain.
fn open_stretch(
    t: &[u64; 256],
    s: &[u8; 256],
    u: &[u8; 256],
    n: usize,
    ks: &[u64; 80],
    chain: &mut [u8],
    d: &mut [u8],
)
    requires size { Size n × (length chain.old ≡ 16 * n) × (length d.old % (16 * n) ≡ 0) }
    requires d_nonzero { (0 < length d.old) × (length d.old ≤ 8192) }
    ensures chain { chain.new ≡ drop (length d.old - 16 * n) d.old }
    ensures run { d.new ≡ cbc_open (lent n t.now s.now u.now ks.now) (16 * n) chain.old d.old }
{
    let m = d.len();
    let mut sealed = room();
    strings::copy_into(&mut sealed[..m], d);
    cbc_lent::open_lent(t, s, u, n, ks, chain, &sealed[..m], d);
    let last = m - chain.len();
    strings::copy_into(chain, &sealed[last..m]);
}

// How many bytes the next stretch has, where so many are left.
fn stretch(left: usize) -> usize
    ensures { result ≡ min 8192 left }
{
    if left < 8192 { left } else { 8192 }
}

// Opens whole blocks where they stand, after the block that chain holds.
fn open_stretches(
    t: &[u64; 256],
    s: &[u8; 256],
    u: &[u8; 256],
    n: usize,
    ks: &[u64; 80],
    chain: &mut [u8],
    d: &mut [u8],
)
    requires { Size n × (length chain.old ≡ 16 * n) × (length d.old % (16 * n) ≡ 0) }
    ensures { d.new ≡ cbc_open (lent n t.now s.now u.now ks.now) (16 * n) chain.old d.old }
{
    let mut at = 0usize;
    while at < d.len() {
        let end = at + stretch(d.len() - at);
        open_stretch(t, s, u, n, ks, chain, &mut d[at..end]);
        at = end;
    }
}

// Opens d where it stands, after the start block, with the tables lent.
fn open_lent(
    t: &[u64; 256],
    s: &[u8; 256],
    u: &[u8; 256],
    n: usize,
    ks: &[u64; 80],
    start: &[u8],
    d: &mut [u8],
) -> u8
    ensures number { result ≡ cbc_refusal n (length start.now) (length d.old) (length d.old) }
    ensures run { d.new ≡ outcome result (cbc_open (lent n t.now s.now u.now ks.now) (16 * n) start.now d.old) d.old }
{
    let number = run_refusals::cbc_refusal(n, start.len(), d.len(), d.len());
    if number != 0 {
        return number;
    }
    let size = start.len();
    let mut chain = strings::block_copy(start);
    open_stretches(t, s, u, n, ks, &mut chain[..size], d);
    0
}

// Opens d where it stands, after the start block, with the published set, whichever set the key names.
pub fn open_published(k: WorkingKey, start: &[u8], d: &mut [u8]) -> u8
    ensures number { result ≡ cbc_refusal k.n (length start.now) (length d.old) (length d.old) }
    ensures run { d.new ≡ outcome result (cbc_open (U article k.n k.words) (16 * k.n) start.now d.old) d.old }
{
    let n = k.n;
    let t = table_cipher::table();
    let s = table_cipher::substitution();
    let u = table_cipher::inverse();
    let ks = table_cipher::schedule(k, true);
    open_lent(&t, &s, &u, n, &ks, start, d)
}

// Opens d where it stands, after the start block: 15 if the set that the key names isn't loaded, right after 1. Set 0 goes its own way, and
// reads no store.
pub fn open(store: Store, k: WorkingKey, start: &[u8], d: &mut [u8]) -> u8
    ensures number { result ≡ under_key k.n (loaded store k.set) (cbc_refusal k.n (length start.now) (length d.old) (length d.old)) }
    ensures run { d.new ≡ outcome result (cbc_open (U (parts_in store k.set) k.n k.words) (16 * k.n) start.now d.old) d.old }
{
    if k.set == 0 {
        return open_published(k, start, d);
    }
    let n = k.n;
    let number = labyrinth::under_key(n, stores::is_loaded(store, k.set), 0);
    if number != 0 {
        return number;
    }
    let set = stores::set_in(store, k.set);
    let s = set.substitution;
    let g = set.row;
    let t = table_cipher::table_of(g, &s);
    let u = table_cipher::inverse_of(&s);
    let keys = table_cipher::schedule(k, true);
    open_lent(&t, &s, &u, n, &keys, start, d)
}
