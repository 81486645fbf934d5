// The library as C sees it: each of these functions takes a key, expands it, does one operation and keeps nothing. include/labyrinth.h declares
// them, and those of rows, which crates/rows_c has.
#![tactic(auto)]

ghost use Rattle.std.specs.Prelude.{◌≡◌, ◌*◌, length};
ghost use Rattle.forms.specs.Refusals.{outcome};
ghost use Rattle.labyrinth.specs.Cipher.{article};
ghost use Rattle.labyrinth.specs.Keys.{E, U};
ghost use Rattle.labyrinth.specs.Refusals.{block_refusal};
ghost use Rattle.modes.specs.Cbc.{cbc_seal, cbc_open};
ghost use Rattle.modes.specs.Ctr.{ctr};
ghost use Rattle.modes.specs.Cmac.{valid};
ghost use Rattle.modes.specs.Cmac.{tag as madeTag};
ghost use Rattle.modes.specs.Refusals.{cbc_refusal, ctr_refusal, cmac_refusal};
ghost use Rattle.one_shot.specs.OneShot.{key_of, number_of, yes_byte};

// Enciphers a block.
#[unsafe(no_mangle)]
pub extern "C" fn labyrinth_encipher(
    n: usize,
    l: usize,
    key: &[u8],
    src: &[u8],
    dst: &mut [u8],
) -> u8
    ensures number { result ≡ number_of n l key.now (block_refusal n (length src.now) (length dst.old)) }
    ensures block { dst.new ≡ outcome result (E article n (key_of n l key.now).words src.now) dst.old }
{
    let x = expansion::expand_published(n, l, key);
    if x.number != 0 {
        return x.number;
    }
    table_cipher::encipher_published(x.key, src, dst)
}

// Deciphers a block.
#[unsafe(no_mangle)]
pub extern "C" fn labyrinth_decipher(
    n: usize,
    l: usize,
    key: &[u8],
    src: &[u8],
    dst: &mut [u8],
) -> u8
    ensures number { result ≡ number_of n l key.now (block_refusal n (length src.now) (length dst.old)) }
    ensures block { dst.new ≡ outcome result (U article n (key_of n l key.now).words src.now) dst.old }
{
    let x = expansion::expand_published(n, l, key);
    if x.number != 0 {
        return x.number;
    }
    table_cipher::decipher_published(x.key, src, dst)
}

// Seals whole blocks by CBC.
#[unsafe(no_mangle)]
pub extern "C" fn labyrinth_cbc_seal(
    n: usize,
    l: usize,
    key: &[u8],
    start: &[u8],
    src: &[u8],
    dst: &mut [u8],
) -> u8
    ensures number { result ≡ number_of n l key.now (cbc_refusal n (length start.now) (length src.now) (length dst.old)) }
    ensures run { dst.new ≡ outcome result (cbc_seal (E article n (key_of n l key.now).words) (16 * n) start.now src.now) dst.old }
{
    let x = expansion::expand_published(n, l, key);
    if x.number != 0 {
        return x.number;
    }
    cbc::seal_published(x.key, start, src, dst)
}

// Opens whole blocks by CBC.
#[unsafe(no_mangle)]
pub extern "C" fn labyrinth_cbc_open(
    n: usize,
    l: usize,
    key: &[u8],
    start: &[u8],
    src: &[u8],
    dst: &mut [u8],
) -> u8
    ensures number { result ≡ number_of n l key.now (cbc_refusal n (length start.now) (length src.now) (length dst.old)) }
    ensures run { dst.new ≡ outcome result (cbc_open (U article n (key_of n l key.now).words) (16 * n) start.now src.now) dst.old }
{
    let x = expansion::expand_published(n, l, key);
    if x.number != 0 {
        return x.number;
    }
    cbc::open_published(x.key, start, src, dst)
}

// Seals or opens by CTR, from block q on.
#[unsafe(no_mangle)]
pub extern "C" fn labyrinth_ctr(
    n: usize,
    l: usize,
    key: &[u8],
    start: &[u8],
    q: u64,
    src: &[u8],
    dst: &mut [u8],
) -> u8
    ensures number { result ≡ number_of n l key.now (ctr_refusal n (length start.now) (length src.now) (length dst.old)) }
    ensures run { dst.new ≡ outcome result (ctr (E article n (key_of n l key.now).words) (16 * n) start.now q src.now) dst.old }
{
    let x = expansion::expand_published(n, l, key);
    if x.number != 0 {
        return x.number;
    }
    ctr::run_published(x.key, start, q, src, dst)
}

// Makes a message's tag at n = 1, as long as tag.
#[unsafe(no_mangle)]
pub extern "C" fn labyrinth_cmac(l: usize, key: &[u8], message: &[u8], tag: &mut [u8]) -> u8
    ensures number { result ≡ number_of 1 l key.now (cmac_refusal 1 (length tag.old)) }
    ensures tag { tag.new ≡ outcome result (madeTag (E article 1 (key_of 1 l key.now).words) (length tag.old) message.now) tag.old }
{
    let x = expansion::expand_published(1, l, key);
    if x.number != 0 {
        return x.number;
    }
    cmac::make_published(x.key, message, tag)
}

// Verifies a given tag at n = 1. Every call sets yes.
#[unsafe(no_mangle)]
pub extern "C" fn labyrinth_cmac_verify(
    l: usize,
    key: &[u8],
    message: &[u8],
    tag: &[u8],
    yes: &mut u8,
) -> u8
    ensures number { result ≡ number_of 1 l key.now (cmac_refusal 1 (length tag.now)) }
    ensures yes { yes.new ≡ yes_byte result (valid (E article 1 (key_of 1 l key.now).words) message.now tag.now) }
{
    let x = expansion::expand_published(1, l, key);
    if x.number != 0 {
        *yes = 0;
        return x.number;
    }
    let v = cmac::verify_published(x.key, message, tag);
    *yes = one_shot::as_byte(v.yes);
    v.number
}
