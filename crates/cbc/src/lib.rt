// Cipher block chaining (NIST SP 800-38A, section 6.2): sealing and opening a run of whole blocks under a working key.
//
// What the block map needs is prepared once for a run, and lent to it (crates/cbc_lent).
#![tactic(auto)]

ghost use Rattle.std.specs.Prelude.{◌≡◌, ◌*◌, length};
ghost use Rattle.forms.specs.Refusals.{outcome};
ghost use Rattle.labyrinth.specs.Cipher.{article};
ghost use Rattle.labyrinth.specs.Keys.{E, U};
ghost use Rattle.labyrinth.specs.Refusals.{under_key};
ghost use Rattle.sets.specs.Sets.{loaded, parts_in};
ghost use Rattle.modes.specs.Cbc.{cbc_seal, cbc_open};
ghost use Rattle.modes.specs.Refusals.{cbc_refusal};

use labyrinth::WorkingKey;
use sets::Store;

// Seals src to dst, after the start block, with the published set, whichever set the key names.
pub fn seal_published(k: WorkingKey, start: &[u8], src: &[u8], dst: &mut [u8]) -> u8
    ensures number { result ≡ cbc_refusal k.n (length start.now) (length src.now) (length dst.old) }
    ensures run { dst.new ≡ outcome result (cbc_seal (E article k.n k.words) (16 * k.n) start.now src.now) dst.old }
{
    let n = k.n;
    let t = table_cipher::table();
    let s = table_cipher::substitution();
    let u = table_cipher::inverse();
    let ks = table_cipher::schedule(k, false);
    cbc_lent::seal_lent(&t, &s, &u, n, &ks, start, src, dst)
}

// Seals src to dst, after the start block: 15 if the set that the key names isn't loaded, right after 1. Set 0 goes its own way, and reads no store.
pub fn seal(store: Store, k: WorkingKey, start: &[u8], src: &[u8], dst: &mut [u8]) -> u8
    ensures number { result ≡ under_key k.n (loaded store k.set) (cbc_refusal k.n (length start.now) (length src.now) (length dst.old)) }
    ensures run { dst.new ≡ outcome result (cbc_seal (E (parts_in store k.set) k.n k.words) (16 * k.n) start.now src.now) dst.old }
{
    if k.set == 0 {
        return seal_published(k, start, src, dst);
    }
    let n = k.n;
    let number = labyrinth::under_key(n, stores::is_loaded(store, k.set), 0);
    if number != 0 {
        return number;
    }
    let v = stores::set_in(store, k.set);
    let s = v.substitution;
    let g = v.row;
    let t = table_cipher::table_of(g, &s);
    let u = table_cipher::inverse_of(&s);
    let keys = table_cipher::schedule(k, false);
    cbc_lent::seal_lent(&t, &s, &u, n, &keys, start, src, dst)
}

// Opens src to dst, after the start block, with the published set, whichever set the key names.
pub fn open_published(k: WorkingKey, start: &[u8], src: &[u8], dst: &mut [u8]) -> u8
    ensures number { result ≡ cbc_refusal k.n (length start.now) (length src.now) (length dst.old) }
    ensures run { dst.new ≡ outcome result (cbc_open (U article k.n k.words) (16 * k.n) start.now src.now) dst.old }
{
    let n = k.n;
    let t = table_cipher::table();
    let s = table_cipher::substitution();
    let u = table_cipher::inverse();
    let ks = table_cipher::schedule(k, true);
    cbc_lent::open_lent(&t, &s, &u, n, &ks, start, src, dst)
}

// Opens src to dst, after the start block: 15 if the set that the key names isn't loaded, right after 1. Set 0 goes its own way, and reads no store.
pub fn open(store: Store, k: WorkingKey, start: &[u8], src: &[u8], dst: &mut [u8]) -> u8
    ensures number { result ≡ under_key k.n (loaded store k.set) (cbc_refusal k.n (length start.now) (length src.now) (length dst.old)) }
    ensures run { dst.new ≡ outcome result (cbc_open (U (parts_in store k.set) k.n k.words) (16 * k.n) start.now src.now) dst.old }
{
    if k.set == 0 {
        return open_published(k, start, src, dst);
    }
    let n = k.n;
    let number = labyrinth::under_key(n, stores::is_loaded(store, k.set), 0);
    if number != 0 {
        return number;
    }
    let set = stores::set_in(store, k.set);
    let s = set.substitution;
    let g = set.row;
    let t = table_cipher::table_of(g, &s);
    let u = table_cipher::inverse_of(&s);
    let keys = table_cipher::schedule(k, true);
    cbc_lent::open_lent(&t, &s, &u, n, &keys, start, src, dst)
}
