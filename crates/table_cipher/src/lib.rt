// The block map by the merged table: what it needs is prepared once for a working key, and lent to every block.
//
// A run prepares `table`, `substitution`, `inverse` and `schedule`; for another set than the published one `table_of` and `inverse_of`. One block goes by `map_block`; many go by `many_blocks` or, where each hangs
// on the one before, by `chains`, which are lent the same four. That these give E and U is a law of labyrinth's, `by_one`.
#![tactic(auto)]

ghost use Rattle.std.specs.Prelude.{◌≡◌, length};
ghost use Rattle.field.specs.Substitution.{invert};
ghost use Rattle.field.specs.Merged.{merged};
ghost use Rattle.field.specs.Published as published;
ghost use Rattle.forms.specs.Refusals.{outcome};
ghost use Rattle.labyrinth.specs.Cipher.{article};
ghost use Rattle.labyrinth.specs.Keys.{E, U};
ghost use Rattle.labyrinth.specs.Refusals.{block_refusal, under_key};
ghost use Rattle.labyrinth.specs.Working.{eight_tables, lendable, lent_refusal, way};
ghost use Rattle.labyrinth.specs.Working.{schedule as laidOut};
ghost use Rattle.labyrinth.specs.Lent.{lent};
ghost use Rattle.sets.specs.Sets.{loaded, parts_in};
ghost use Rattle.substitutions.specs.Inverse.{inverse_bytes};

use labyrinth::WorkingKey;
use sets::Store;

// The merged table.
pub fn table() -> [u64; 256]
    ensures { result ≡ merged published.row published.table1 }
{
    tables::merged_table()
}

// A merged table as eight tables.
pub fn eight_tables(t: &[u64; 256]) -> [u64; 2048]
    ensures { result ≡ eight_tables t.now }
{
    let mut eight = eight_tables::zeros();
    eight_tables::fill(t, &mut eight);
    eight
}

// The merged table of a set.
pub fn table_of(g: [u8; 8], s: &[u8; 256]) -> [u64; 256]
    ensures { result ≡ merged g s.now }
{
    rows::table_of(g, s)
}

// The substitution.
pub fn substitution() -> [u8; 256]
    ensures { result ≡ published.table1 }
{
    published::sbox()
}

// Its inverse.
pub fn inverse() -> [u8; 256]
    ensures { result ≡ invert published.table1 }
{
    published::sbox_inverse()
}

// The inverse of a set's substitution.
pub fn inverse_of(s: &[u8; 256]) -> [u8; 256]
    ensures { result ≡ inverse_bytes s.now }
{
    substitutions::inverse(s)
}

// The schedule of a working key, for enciphering or, with back, deciphering.
pub fn schedule(k: WorkingKey, back: bool) -> [u64; 80]
    ensures { result ≡ laidOut k.n k.words back }
{
    schedule::schedule(k, back)
}

// Whether a table of so many words is in one of the two forms.
fn is_lendable(words: usize) -> bool
    ensures { result ≡ lendable words }
{
    words == 256 || words == 2048
}

// Maps a block by what is lent: a merged table t as it is, 256 words, or as eight tables, 2048 words, a substitution s, its inverse u and
// a schedule ks.
pub fn map_block(
    t: &[u64],
    s: &[u8; 256],
    u: &[u8; 256],
    n: usize,
    ks: &[u64; 80],
    src: &[u8],
    dst: &mut [u8],
) -> u8
    ensures number { result ≡ lent_refusal n (length src.now) (length dst.old) (length t.now) }
    ensures block { dst.new ≡ outcome result (lent n t.now s.now u.now ks.now src.now) dst.old }
{
    let number = cipher_refusals::block_refusal(n, src.len(), dst.len());
    if number != 0 {
        return number;
    }
    if !is_lendable(t.len()) {
        return 5;
    }
    let h = table_rounds::rounds(t, n, ks, transforms::enter(s, n, ks, src));
    transforms::leave(u, n, ks, labyrinth::exchange(h), dst);
    0
}

// One way or the other by the published set, with what is prepared for this block alone.
fn by_published(k: WorkingKey, back: bool, src: &[u8], dst: &mut [u8]) -> u8
    ensures number { result ≡ block_refusal k.n (length src.now) (length dst.old) }
    ensures block { dst.new ≡ outcome result (way article back k.n k.words src.now) dst.old }
{
    let n = k.n;
    let t = table();
    let s = substitution();
    let u = inverse();
    let ks = schedule(k, back);
    map_block(&t, &s, &u, n, &ks, src, dst)
}

// Enciphers a block by the merged table, with the published set whichever set the key names.
pub fn encipher_published(k: WorkingKey, src: &[u8], dst: &mut [u8]) -> u8
    ensures number { result ≡ block_refusal k.n (length src.now) (length dst.old) }
    ensures block { dst.new ≡ outcome result (E article k.n k.words src.now) dst.old }
{
    by_published(k, false, src, dst)
}

// Deciphers a block by the merged table, with the published set whichever set the key names.
pub fn decipher_published(k: WorkingKey, src: &[u8], dst: &mut [u8]) -> u8
    ensures number { result ≡ block_refusal k.n (length src.now) (length dst.old) }
    ensures block { dst.new ≡ outcome result (U article k.n k.words src.now) dst.old }
{
    by_published(k, true, src, dst)
}

// One way or the other by the set that the key names: 15 if it isn't loaded, right after 1. Set 0 goes its own way, and reads no store.
fn by_table(store: Store, k: WorkingKey, back: bool, src: &[u8], dst: &mut [u8]) -> u8
    ensures number { result ≡ under_key k.n (loaded store k.set) (block_refusal k.n (length src.now) (length dst.old)) }
    ensures block { dst.new ≡ outcome result (way (parts_in store k.set) back k.n k.words src.now) dst.old }
{
    if k.set == 0 {
        return by_published(k, back, src, dst);
    }
    let n = k.n;
    let number = labyrinth::under_key(n, stores::is_loaded(store, k.set), 0);
    if number != 0 {
        return number;
    }
    let v = stores::set_in(store, k.set);
    let s = v.substitution;
    let g = v.row;
    let t = table_of(g, &s);
    let u = inverse_of(&s);
    let keys = schedule(k, back);
    map_block(&t, &s, &u, n, &keys, src, dst)
}

// Enciphers a block by the merged table.
pub fn encipher_by_table(store: Store, k: WorkingKey, src: &[u8], dst: &mut [u8]) -> u8
    ensures number { result ≡ under_key k.n (loaded store k.set) (block_refusal k.n (length src.now) (length dst.old)) }
    ensures block { dst.new ≡ outcome result (E (parts_in store k.set) k.n k.words src.now) dst.old }
{
    by_table(store, k, false, src, dst)
}

// Deciphers a block by the merged table.
pub fn decipher_by_table(store: Store, k: WorkingKey, src: &[u8], dst: &mut [u8]) -> u8
    ensures number { result ≡ under_key k.n (loaded store k.set) (block_refusal k.n (length src.now) (length dst.old)) }
    ensures block { dst.new ≡ outcome result (U (parts_in store k.set) k.n k.words src.now) dst.old }
{
    by_table(store, k, true, src, dst)
}
