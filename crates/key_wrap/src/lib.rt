// Key wrapping KW (NIST SP 800-38F) over the cipher's block operation at n = 1: a key wrapped under a working key, and unwrapped.
//
// What the block map needs is prepared once for a key, and lent to every block.
#![tactic(auto)]

ghost use Rattle.std.specs.Prelude.{◌≡◌, length};
ghost use Rattle.forms.specs.Refusals.{outcome};
ghost use Rattle.labyrinth.specs.Cipher.{article};
ghost use Rattle.labyrinth.specs.Keys.{E, U};
ghost use Rattle.labyrinth.specs.Refusals.{under_key};
ghost use Rattle.sets.specs.Sets.{loaded, parts_in};
ghost use Rattle.modes.specs.KeyWrap.{wrapped, authentic, unwrapped};
ghost use Rattle.modes.specs.Refusals.{wrap_refusal, unwrap_refusal};

use labyrinth::WorkingKey;
use sets::Store;

// Wraps the key in src to dst with the published set, whichever set the working key names.
pub fn wrap_published(k: WorkingKey, src: &[u8], dst: &mut [u8]) -> u8
    ensures number { result ≡ wrap_refusal k.n (length src.now) (length dst.old) }
    ensures key { dst.new ≡ outcome result (wrapped (E article k.n k.words) src.now) dst.old }
{
    let n = k.n;
    let t = table_cipher::table();
    let s = table_cipher::substitution();
    let u = table_cipher::inverse();
    let ks = table_cipher::schedule(k, false);
    key_wrap_lent::wrap_lent(&t, &s, &u, n, &ks, src, dst)
}

// Wraps the key in src to dst: 15 if the set that the working key names isn't loaded, right after 1. Set 0 goes its own way, and reads no store.
pub fn wrap(store: Store, k: WorkingKey, src: &[u8], dst: &mut [u8]) -> u8
    ensures number { result ≡ under_key k.n (loaded store k.set) (wrap_refusal k.n (length src.now) (length dst.old)) }
    ensures key { dst.new ≡ outcome result (wrapped (E (parts_in store k.set) k.n k.words) src.now) dst.old }
{
    if k.set == 0 {
        return wrap_published(k, src, dst);
    }
    let n = k.n;
    let number = labyrinth::under_key(n, stores::is_loaded(store, k.set), 0);
    if number != 0 {
        return number;
    }
    let v = stores::set_in(store, k.set);
    let s = v.substitution;
    let g = v.row;
    let t = table_cipher::table_of(g, &s);
    let u = table_cipher::inverse_of(&s);
    let keys = table_cipher::schedule(k, false);
    key_wrap_lent::wrap_lent(&t, &s, &u, n, &keys, src, dst)
}

// Unwraps the wrapped key in src to dst with the published set, whichever set the working key names; 18 if its check value is wrong.
pub fn unwrap_published(k: WorkingKey, src: &[u8], dst: &mut [u8]) -> u8
    ensures number { result ≡ unwrap_refusal k.n (length src.now) (length dst.old) (authentic (U article k.n k.words) src.now) }
    ensures key { dst.new ≡ outcome result (unwrapped (U article k.n k.words) src.now) dst.old }
{
    let n = k.n;
    let t = table_cipher::table();
    let s = table_cipher::substitution();
    let u = table_cipher::inverse();
    let ks = table_cipher::schedule(k, true);
    key_wrap_lent::unwrap_lent(&t, &s, &u, n, &ks, src, dst)
}

// Unwraps the wrapped key in src to dst: 15 if the set that the working key names isn't loaded, right after 1; 18, after all else, if the check value is
// wrong.
pub fn unwrap(store: Store, k: WorkingKey, src: &[u8], dst: &mut [u8]) -> u8
    ensures number { result ≡ under_key k.n (loaded store k.set) (unwrap_refusal k.n (length src.now) (length dst.old) (authentic (U (parts_in store k.set) k.n k.words) src.now)) }
    ensures key { dst.new ≡ outcome result (unwrapped (U (parts_in store k.set) k.n k.words) src.now) dst.old }
{
    if k.set == 0 {
        return unwrap_published(k, src, dst);
    }
    let n = k.n;
    let number = labyrinth::under_key(n, stores::is_loaded(store, k.set), 0);
    if number != 0 {
        return number;
    }
    let set = stores::set_in(store, k.set);
    let s = set.substitution;
    let g = set.row;
    let t = table_cipher::table_of(g, &s);
    let u = table_cipher::inverse_of(&s);
    let keys = table_cipher::schedule(k, true);
    key_wrap_lent::unwrap_lent(&t, &s, &u, n, &keys, src, dst)
}
