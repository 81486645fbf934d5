// The library as C sees it, under a working key: CBC and CTR by the set that the key names, out of a store. Both records are bytes that the caller
// lends (crates/records). A key that names set 0 is used without reading the store. include/labyrinth.h declares these functions.
#![tactic(auto)]

ghost use Rattle.std.specs.Prelude.{◌≡◌, length};
ghost use Rattle.forms.specs.Refusals.{outcome};
ghost use Rattle.modes.specs.Cbc.{cbc_seal, cbc_open};
ghost use Rattle.modes.specs.Ctr.{ctr};
ghost use Rattle.modes.specs.Refusals.{cbc_refusal, ctr_refusal};
ghost use Rattle.records.specs.Lent.{lent_number, lent_e, lent_u, lent_size};

// Seals whole blocks by CBC.
#[unsafe(no_mangle)]
pub extern "C" fn labyrinth_key_cbc_seal(
    store: &[u8],
    working: &[u8],
    start: &[u8],
    src: &[u8],
    dst: &mut [u8],
) -> u8
    ensures number { result ≡ lent_number store.now working.now (λ n. cbc_refusal n (length start.now) (length src.now) (length dst.old)) }
    ensures run { dst.new ≡ outcome result (cbc_seal (lent_e store.now working.now) (lent_size working.now) start.now src.now) dst.old }
{
    if !records::fit(store.len(), working.len()) {
        return 4;
    }
    let k = key_records::key_of(working);
    if k.set == 0 {
        return cbc::seal_published(k, start, src, dst);
    }
    cbc::seal(store_records::store_of(store), k, start, src, dst)
}

// Opens whole blocks by CBC.
#[unsafe(no_mangle)]
pub extern "C" fn labyrinth_key_cbc_open(
    store: &[u8],
    working: &[u8],
    start: &[u8],
    src: &[u8],
    dst: &mut [u8],
) -> u8
    ensures number { result ≡ lent_number store.now working.now (λ n. cbc_refusal n (length start.now) (length src.now) (length dst.old)) }
    ensures run { dst.new ≡ outcome result (cbc_open (lent_u store.now working.now) (lent_size working.now) start.now src.now) dst.old }
{
    if !records::fit(store.len(), working.len()) {
        return 4;
    }
    let k = key_records::key_of(working);
    if k.set == 0 {
        return cbc::open_published(k, start, src, dst);
    }
    cbc::open(store_records::store_of(store), k, start, src, dst)
}

// Seals or opens by CTR, from block q on.
#[unsafe(no_mangle)]
pub extern "C" fn labyrinth_key_ctr(
    store: &[u8],
    working: &[u8],
    start: &[u8],
    q: u64,
    src: &[u8],
    dst: &mut [u8],
) -> u8
    ensures number { result ≡ lent_number store.now working.now (λ n. ctr_refusal n (length start.now) (length src.now) (length dst.old)) }
    ensures run { dst.new ≡ outcome result (ctr (lent_e store.now working.now) (lent_size working.now) start.now q src.now) dst.old }
{
    if !records::fit(store.len(), working.len()) {
        return 4;
    }
    let k = key_records::key_of(working);
    if k.set == 0 {
        return ctr::run_published(k, start, q, src, dst);
    }
    ctr::run(store_records::store_of(store), k, start, q, src, dst)
}
