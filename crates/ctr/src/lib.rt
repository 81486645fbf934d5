// Counter mode over the cipher's block operation. Sealing and opening are the same.
//
// What the block map needs is prepared once for a run, and lent to it (crates/ctr_lent).
#![tactic(auto)]

ghost use Rattle.std.specs.Prelude.{◌≡◌, ◌*◌, length, set};
ghost use Rattle.forms.specs.Refusals.{outcome};
ghost use Rattle.forms.specs.Strings.{number};
ghost use Rattle.labyrinth.specs.Cipher.{article};
ghost use Rattle.labyrinth.specs.Keys.{E};
ghost use Rattle.labyrinth.specs.Refusals.{under_key};
ghost use Rattle.sets.specs.Sets.{loaded, parts_in};
ghost use Rattle.modes.specs.Ctr.{ctr};
ghost use Rattle.modes.specs.Refusals.{ctr_refusal};

use labyrinth::WorkingKey;
use sets::Store;

// Seals or opens src to dst, from block q of the run that start begins, with the published set, whichever set the key names.
pub fn run_published(k: WorkingKey, start: &[u8], q: u64, src: &[u8], dst: &mut [u8]) -> u8
    ensures number { result ≡ ctr_refusal k.n (length start.now) (length src.now) (length dst.old) }
    ensures run { dst.new ≡ outcome result (ctr (E article k.n k.words) (16 * k.n) start.now q src.now) dst.old }
{
    let n = k.n;
    let t = table_cipher::table();
    let s = table_cipher::substitution();
    let u = table_cipher::inverse();
    let ks = table_cipher::schedule(k, false);
    ctr_lent::run_lent(&t, &s, &u, n, &ks, start, q, src, dst)
}

// Seals or opens src to dst, from block q of the run that start begins: 15 if the set that the key names isn't loaded, right after 1. Set 0 goes its own way, and reads no store.
pub fn run(store: Store, k: WorkingKey, start: &[u8], q: u64, src: &[u8], dst: &mut [u8]) -> u8
    ensures number { result ≡ under_key k.n (loaded store k.set) (ctr_refusal k.n (length start.now) (length src.now) (length dst.old)) }
    ensures run { dst.new ≡ outcome result (ctr (E (parts_in store k.set) k.n k.words) (16 * k.n) start.now q src.now) dst.old }
{
    if k.set == 0 {
        return run_published(k, start, q, src, dst);
    }
    let n = k.n;
    let number = labyrinth::under_key(n, stores::is_loaded(store, k.set), 0);
    if number != 0 {
        return number;
    }
    let v = stores::set_in(store, k.set);
    let s = v.substitution;
    let g = v.row;
    let t = table_cipher::table_of(g, &s);
    let u = table_cipher::inverse_of(&s);
    let keys = table_cipher::schedule(k, false);
    ctr_lent::run_lent(&t, &s, &u, n, &keys, start, q, src, dst)
}
