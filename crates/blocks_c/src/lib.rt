// The library as C sees it, under a working key: blocks by the set that the key names, out of a store. Both records are bytes that the caller lends
// (crates/records). A key that names set 0 is used without reading the store, but by the matrix. include/labyrinth.h declares these functions.
#![tactic(auto)]

ghost use Rattle.std.specs.Prelude.{◌≡◌, length};
ghost use Rattle.forms.specs.Refusals.{outcome};
ghost use Rattle.labyrinth.specs.Refusals.{block_refusal};
ghost use Rattle.records.specs.Lent.{lent_number, lent_e, lent_u};

// Enciphers a block.
#[unsafe(no_mangle)]
pub extern "C" fn labyrinth_key_encipher(
    store: &[u8],
    working: &[u8],
    src: &[u8],
    dst: &mut [u8],
) -> u8
    ensures number { result ≡ lent_number store.now working.now (λ n. block_refusal n (length src.now) (length dst.old)) }
    ensures block { dst.new ≡ outcome result (lent_e store.now working.now src.now) dst.old }
{
    if !records::fit(store.len(), working.len()) {
        return 4;
    }
    let k = key_records::key_of(working);
    if k.set == 0 {
        return table_cipher::encipher_published(k, src, dst);
    }
    table_cipher::encipher_by_table(store_records::store_of(store), k, src, dst)
}

// Deciphers a block.
#[unsafe(no_mangle)]
pub extern "C" fn labyrinth_key_decipher(
    store: &[u8],
    working: &[u8],
    src: &[u8],
    dst: &mut [u8],
) -> u8
    ensures number { result ≡ lent_number store.now working.now (λ n. block_refusal n (length src.now) (length dst.old)) }
    ensures block { dst.new ≡ outcome result (lent_u store.now working.now src.now) dst.old }
{
    if !records::fit(store.len(), working.len()) {
        return 4;
    }
    let k = key_records::key_of(working);
    if k.set == 0 {
        return table_cipher::decipher_published(k, src, dst);
    }
    table_cipher::decipher_by_table(store_records::store_of(store), k, src, dst)
}

// Enciphers a block by the matrix.
#[unsafe(no_mangle)]
pub extern "C" fn labyrinth_key_encipher_by_matrix(
    store: &[u8],
    working: &[u8],
    src: &[u8],
    dst: &mut [u8],
) -> u8
    ensures number { result ≡ lent_number store.now working.now (λ n. block_refusal n (length src.now) (length dst.old)) }
    ensures block { dst.new ≡ outcome result (lent_e store.now working.now src.now) dst.old }
{
    if !records::fit(store.len(), working.len()) {
        return 4;
    }
    let k = key_records::key_of(working);
    matrix_cipher::encipher_by_matrix(store_records::store_of(store), k, src, dst)
}

// Deciphers a block by the matrix.
#[unsafe(no_mangle)]
pub extern "C" fn labyrinth_key_decipher_by_matrix(
    store: &[u8],
    working: &[u8],
    src: &[u8],
    dst: &mut [u8],
) -> u8
    ensures number { result ≡ lent_number store.now working.now (λ n. block_refusal n (length src.now) (length dst.old)) }
    ensures block { dst.new ≡ outcome result (lent_u store.now working.now src.now) dst.old }
{
    if !records::fit(store.len(), working.len()) {
        return 4;
    }
    let k = key_records::key_of(working);
    matrix_cipher::decipher_by_matrix(store_records::store_of(store), k, src, dst)
}
