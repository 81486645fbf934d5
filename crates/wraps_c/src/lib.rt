// The library as C sees it: keys wrapped and unwrapped under a working key, by the set that the key names, out of a store. Both records are bytes
// that the caller lends (crates/records). A key that names set 0 is used without reading the store. include/labyrinth.h declares these functions.
#![tactic(auto)]

ghost use Rattle.std.specs.Prelude.{◌≡◌, length};
ghost use Rattle.forms.specs.Refusals.{outcome};
ghost use Rattle.modes.specs.KeyWrap.{wrapped, authentic, unwrapped};
ghost use Rattle.modes.specs.Refusals.{wrap_refusal, unwrap_refusal};
ghost use Rattle.records.specs.Lent.{lent_number, lent_e, lent_u};

// Wraps the key in src.
#[unsafe(no_mangle)]
pub extern "C" fn labyrinth_key_wrap(store: &[u8], working: &[u8], src: &[u8], dst: &mut [u8]) -> u8
    ensures number { result ≡ lent_number store.now working.now (λ n. wrap_refusal n (length src.now) (length dst.old)) }
    ensures key { dst.new ≡ outcome result (wrapped (lent_e store.now working.now) src.now) dst.old }
{
    if !records::fit(store.len(), working.len()) {
        return 4;
    }
    let k = key_records::key_of(working);
    if k.set == 0 {
        return key_wrap::wrap_published(k, src, dst);
    }
    key_wrap::wrap(store_records::store_of(store), k, src, dst)
}

// Unwraps the wrapped key in src; 18, after all else, if its check value is wrong.
#[unsafe(no_mangle)]
pub extern "C" fn labyrinth_key_unwrap(
    store: &[u8],
    working: &[u8],
    src: &[u8],
    dst: &mut [u8],
) -> u8
    ensures number { result ≡ lent_number store.now working.now (λ n. unwrap_refusal n (length src.now) (length dst.old) (authentic (lent_u store.now working.now) src.now)) }
    ensures key { dst.new ≡ outcome result (unwrapped (lent_u store.now working.now) src.now) dst.old }
{
    if !records::fit(store.len(), working.len()) {
        return 4;
    }
    let k = key_records::key_of(working);
    if k.set == 0 {
        return key_wrap::unwrap_published(k, src, dst);
    }
    key_wrap::unwrap(store_records::store_of(store), k, src, dst)
}
