// The library as C sees it, under a working key: tags by the set that the key names, out of a store. Both records are bytes that the caller lends
// (crates/records). A key that names set 0 is used without reading the store. include/labyrinth.h declares these functions.
#![tactic(auto)]

ghost use Rattle.std.specs.Prelude.{◌≡◌, length};
ghost use Rattle.forms.specs.Refusals.{outcome};
ghost use Rattle.labyrinth.specs.Refusals.{under_key};
ghost use Rattle.modes.specs.Cmac.{valid};
ghost use Rattle.modes.specs.Cmac.{tag as madeTag};
ghost use Rattle.modes.specs.Refusals.{cmac_refusal};
ghost use Rattle.cmac.specs.Verification.{verification};
ghost use Rattle.sets.specs.Sets.{loaded};
ghost use Rattle.one_shot.specs.OneShot.{yes_byte};
ghost use Rattle.records.specs.Records.{key_in, store_in};
ghost use Rattle.records.specs.Lent.{lent_number, lent_e};

use cmac::Verified;

// Makes a message's tag, as long as tag.
#[unsafe(no_mangle)]
pub extern "C" fn labyrinth_key_cmac(
    store: &[u8],
    working: &[u8],
    message: &[u8],
    tag: &mut [u8],
) -> u8
    ensures number { result ≡ lent_number store.now working.now (λ n. cmac_refusal n (length tag.old)) }
    ensures tag { tag.new ≡ outcome result (madeTag (lent_e store.now working.now) (length tag.old) message.now) tag.old }
{
    if !records::fit(store.len(), working.len()) {
        return 4;
    }
    let k = key_records::key_of(working);
    if k.set == 0 {
        return cmac::make_published(k, message, tag);
    }
    cmac::make(store_records::store_of(store), k, message, tag)
}

// A given tag verified, by the set that the key names.
fn verified(store: &[u8], working: &[u8], message: &[u8], tag: &[u8]) -> Verified
    ensures { result ≡ verification (lent_e store.now working.now) message.now tag.now (under_key (key_in working.now).n (loaded (store_in store.now) (key_in working.now).set) (cmac_refusal (key_in working.now).n (length tag.now))) }
{
    let k = key_records::key_of(working);
    if k.set == 0 {
        return cmac::verify_published(k, message, tag);
    }
    cmac::verify(store_records::store_of(store), k, message, tag)
}

// Verifies a given tag. Every call sets yes.
#[unsafe(no_mangle)]
pub extern "C" fn labyrinth_key_cmac_verify(
    store: &[u8],
    working: &[u8],
    message: &[u8],
    tag: &[u8],
    yes: &mut u8,
) -> u8
    ensures number { result ≡ lent_number store.now working.now (λ n. cmac_refusal n (length tag.now)) }
    ensures yes { yes.new ≡ yes_byte result (valid (lent_e store.now working.now) message.now tag.now) }
{
    if !records::fit(store.len(), working.len()) {
        *yes = 0;
        return 4;
    }
    let v = verified(store, working, message, tag);
    *yes = one_shot::as_byte(v.yes);
    v.number
}
