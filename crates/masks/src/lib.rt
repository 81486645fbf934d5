// The masks of CMAC (NIST SP 800-38B, 6.1, where they are subkeys), and a message's last block under its mask (6.2).
#![tactic(auto)]

ghost use Rattle.std.specs.Prelude.{◌≡◌, take};
ghost use Rattle.modes.specs.Cmac.{doubled, pad, last_block};

// The mask after x: L gives K1, and K1 gives K2.
fn next_mask(x: [u8; 16]) -> [u8; 16]
    ensures { result ≡ doubled x }
{
    let mut r = x;
    numbers::double_into(&mut r);
    if 128 <= x[0] {
        r[15] ^= 0x87;
    }
    r
}

// The last part of a message with a bit 1 and zeros behind it, as far as a block goes: a whole block stays as it is.
fn padded(last: &[u8]) -> [u8; 16]
    ensures { result ≡ take 16 (pad last.now) }
{
    let size = last.len();
    let mut r = [0u8; 16];
    strings::copy_into(&mut r, last);
    if size < 16 {
        r[size] = 0x80;
    }
    r
}

// The last block under its mask, l being the block of zeros enciphered.
pub fn last_block(l: [u8; 16], last: &[u8]) -> [u8; 16]
    ensures { result ≡ last_block (doubled l) (doubled (doubled l)) last.now }
{
    let k1 = next_mask(l);
    let k2 = next_mask(k1);
    let block = padded(last);
    let whole = last.len() == 16;
    let mask = if whole { k1 } else { k2 };
    let mut r = [0u8; 16];
    strings::xor_to(&mut r, &mask, &block);
    r
}
