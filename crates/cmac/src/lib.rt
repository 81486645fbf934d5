// CMAC (NIST SP 800-38B) over the cipher's block operation at n = 1: a message's tag made, and a given tag verified.
//
// What the block map needs is prepared once for a message, and lent to it (crates/cmac_lent).
#![tactic(auto)]

ghost use Rattle.std.specs.Prelude.{◌≡◌, false, length};
ghost use Rattle.forms.specs.Refusals.{outcome};
ghost use Rattle.labyrinth.specs.Cipher.{article};
ghost use Rattle.labyrinth.specs.Keys.{E};
ghost use Rattle.labyrinth.specs.Refusals.{under_key};
ghost use Rattle.labyrinth.specs.Lent.{lent};
ghost use Rattle.sets.specs.Sets.{loaded, parts_in};
ghost use Rattle.modes.specs.Cmac.{tag as madeTag};
ghost use Rattle.modes.specs.Refusals.{cmac_refusal};
ghost use Rattle.cmac.specs.Verification.{verification};

use labyrinth::WorkingKey;
use sets::Store;

// What verifying answers: the number, and whether the given tag is the message's. A refusal is a no.
#[derive(Clone, Copy)]
pub struct Verified {
    pub number: u8,
    pub yes: bool,
}

// A refused tag.
fn refused(number: u8) -> Verified
    ensures { result ≡ record { number = number; yes = false } }
{
    Verified {
        number: number,
        yes: false,
    }
}

// Verifies a given tag with the tables lent: every byte of it is compared.
fn verify_lent(
    t: &[u64; 256],
    s: &[u8; 256],
    u: &[u8; 256],
    n: usize,
    ks: &[u64; 80],
    message: &[u8],
    tag: &[u8],
) -> Verified
    ensures { result ≡ verification (lent n t.now s.now u.now ks.now) message.now tag.now (cmac_refusal n (length tag.now)) }
{
    let size = tag.len();
    let number = run_refusals::cmac_refusal(n, size);
    if number != 0 {
        return refused(number);
    }
    let made = cmac_lent::last_of(t, s, u, ks, message);
    Verified {
        number: 0,
        yes: strings::equal(&made[..size], tag),
    }
}

// Makes a message's tag with the published set, whichever set the key names.
pub fn make_published(k: WorkingKey, message: &[u8], dst: &mut [u8]) -> u8
    ensures number { result ≡ cmac_refusal k.n (length dst.old) }
    ensures tag { dst.new ≡ outcome result (madeTag (E article k.n k.words) (length dst.old) message.now) dst.old }
{
    let n = k.n;
    let t = table_cipher::table();
    let s = table_cipher::substitution();
    let u = table_cipher::inverse();
    let ks = table_cipher::schedule(k, false);
    cmac_lent::make_lent(&t, &s, &u, n, &ks, message, dst)
}

// Verifies a given tag with the published set, whichever set the key names.
pub fn verify_published(k: WorkingKey, message: &[u8], tag: &[u8]) -> Verified
    ensures { result ≡ verification (E article k.n k.words) message.now tag.now (cmac_refusal k.n (length tag.now)) }
{
    let n = k.n;
    let t = table_cipher::table();
    let s = table_cipher::substitution();
    let u = table_cipher::inverse();
    let ks = table_cipher::schedule(k, false);
    verify_lent(&t, &s, &u, n, &ks, message, tag)
}

// Makes a message's tag, as long as dst: 15 if the set that the key names isn't loaded, right after 1. Set 0 goes its own way, and reads no
// store.
pub fn make(store: Store, k: WorkingKey, message: &[u8], dst: &mut [u8]) -> u8
    ensures number { result ≡ under_key k.n (loaded store k.set) (cmac_refusal k.n (length dst.old)) }
    ensures tag { dst.new ≡ outcome result (madeTag (E (parts_in store k.set) k.n k.words) (length dst.old) message.now) dst.old }
{
    if k.set == 0 {
        return make_published(k, message, dst);
    }
    let n = k.n;
    let number = labyrinth::under_key(n, stores::is_loaded(store, k.set), 0);
    if number != 0 {
        return number;
    }
    let v = stores::set_in(store, k.set);
    let s = v.substitution;
    let g = v.row;
    let t = table_cipher::table_of(g, &s);
    let u = table_cipher::inverse_of(&s);
    let keys = table_cipher::schedule(k, false);
    cmac_lent::make_lent(&t, &s, &u, n, &keys, message, dst)
}

// Verifies a given tag: a no with 15 if the set that the key names isn't loaded.
pub fn verify(store: Store, k: WorkingKey, message: &[u8], tag: &[u8]) -> Verified
    ensures { result ≡ verification (E (parts_in store k.set) k.n k.words) message.now tag.now (under_key k.n (loaded store k.set) (cmac_refusal k.n (length tag.now))) }
{
    if k.set == 0 {
        return verify_published(k, message, tag);
    }
    let n = k.n;
    let number = labyrinth::under_key(n, stores::is_loaded(store, k.set), 0);
    if number != 0 {
        return refused(number);
    }
    let set = stores::set_in(store, k.set);
    let s = set.substitution;
    let g = set.row;
    let t = table_cipher::table_of(g, &s);
    let u = table_cipher::inverse_of(&s);
    let keys = table_cipher::schedule(k, false);
    verify_lent(&t, &s, &u, n, &keys, message, tag)
}
