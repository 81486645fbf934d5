// CMAC (NIST SP 800-38B) over what is lent, at n = 1: the last block of a message's chain, and a tag made of it. crates/cmac has the operations.
//
// What the block map needs is prepared once for a message, and lent to every block. Each inner function is stated over the block map m
// that it gives.
#![tactic(auto)]

ghost use Rattle.std.specs.Prelude.{◌≡◌, List, ℕ, ◌*◌, ◌-◌, length, replicate};
ghost use Rattle.forms.specs.Refusals.{outcome};
ghost use Rattle.forms.specs.Strings.{xor_bytes};
ghost use Rattle.labyrinth.specs.Lent.{lent};
ghost use Rattle.modes.specs.Cmac.{block_count, mac};
ghost use Rattle.modes.specs.Cmac.{tag as madeTag};
ghost use Rattle.modes.specs.Refusals.{cmac_refusal};

// How many bytes of a message stand before its last block.
fn front(size: usize) -> usize
    ensures { result ≡ 16 * (block_count size - 1) }
{
    if size == 0 { 0 } else { (size - 1) / 16 * 16 }
}

// The block of zeros enciphered: the standard's L.
fn zeros_enciphered(t: &[u64; 256], s: &[u8; 256], u: &[u8; 256], ks: &[u64; 80]) -> [u8; 16]
    ensures { let m : List ℕ → List ℕ = lent 1 t.now s.now u.now ks.now in result ≡ m (replicate 16 0) }
{
    let zeros = [0u8; 16];
    let mut l = [0u8; 16];
    table_cipher::map_block(t, s, u, 1, ks, &zeros, &mut l);
    l
}

// Chains a block: c becomes the XOR of c and the block, enciphered.
fn chain_block(
    t: &[u64; 256],
    s: &[u8; 256],
    u: &[u8; 256],
    ks: &[u64; 80],
    c: &mut [u8],
    block: &[u8],
)
    requires { (length c.old ≡ 16) × (length block.now ≡ 16) }
    ensures { let m : List ℕ → List ℕ = lent 1 t.now s.now u.now ks.now in c.new ≡ m (xor_bytes c.old block.now) }
{
    let mut x = [0u8; 16];
    strings::xor_to(&mut x, c, block);
    table_cipher::map_block(t, s, u, 1, ks, &x, c);
}

// The last block of a message's chain.
pub fn last_of(
    t: &[u64; 256],
    s: &[u8; 256],
    u: &[u8; 256],
    ks: &[u64; 80],
    message: &[u8],
) -> [u8; 16]
    ensures { result ≡ mac (lent 1 t.now s.now u.now ks.now) message.now }
{
    let at = front(message.len());
    let mut c = [0u8; 16];
    chains::chain_on(t, s, u, 1, ks, &mut c, &message[..at]);
    let l = zeros_enciphered(t, s, u, ks);
    let last = masks::last_block(l, &message[at..]);
    chain_block(t, s, u, ks, &mut c, &last);
    c
}

// Makes a message's tag, as long as dst, with the tables lent.
pub fn make_lent(
    t: &[u64; 256],
    s: &[u8; 256],
    u: &[u8; 256],
    n: usize,
    ks: &[u64; 80],
    message: &[u8],
    dst: &mut [u8],
) -> u8
    ensures number { result ≡ cmac_refusal n (length dst.old) }
    ensures tag { dst.new ≡ outcome result (madeTag (lent n t.now s.now u.now ks.now) (length dst.old) message.now) dst.old }
{
    let number = run_refusals::cmac_refusal(n, dst.len());
    if number != 0 {
        return number;
    }
    let last = last_of(t, s, u, ks, message);
    strings::copy_into(dst, &last);
    0
}
