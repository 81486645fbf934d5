// Operations on byte strings that the modes are made of, for strings of any lengths, and buffers for a block of any size.
#![tactic(auto)]

ghost use Rattle.std.specs.Prelude.{◌≡◌, ◌++◌, ◌≤◌, length, take, drop, replicate};
ghost use Rattle.forms.specs.Lists.{words_from};
ghost use Rattle.forms.specs.Strings.{xor_bytes, same};

// 64 bytes 0, for a block of any size.
pub fn zero_block() -> [u8; 64]
    ensures long { 64 ≡ length result }
    ensures zeros { result ≡ replicate 64 0 }
{
    [0; 64]
}

// Copies s to d, as far as both go. Bytes of d past s stay.
// By index: of `copy_from_slice` the compiler makes a call of memmove, and the library for C asks for memcpy and memset alone.
pub fn copy_into(d: &mut [u8], s: &[u8])
    ensures { d.new ≡ take (length d.old) s.now ++ drop (length s.now) d.old }
{
    let m = d.len().min(s.len());
    for i in 0..m {
        d[i] = s[i];
    }
}

// The N bytes from a place on; a byte that has no room there is 0.
pub fn bytes_at<const N: usize>(b: &[u8], at: usize) -> [u8; N]
    ensures { result ≡ words_from N at b.now }
{
    let mut r = [0u8; N];
    if at < b.len() {
        copy_into(&mut r, &b[at..]);
    }
    r
}

// A block at the front of 64 bytes, zeros behind it; of a longer string the first 64 bytes.
pub fn block_copy(block: &[u8]) -> [u8; 64]
    ensures { result ≡ take 64 block.now ++ drop (length block.now) (replicate 64 0) }
{
    let mut r = [0u8; 64];
    copy_into(&mut r, block);
    r
}

// Writes the XOR of a and b to the first 16 bytes of d, as two words.
fn xor_two_words(d: &mut [u8], a: &[u8], b: &[u8])
    requires { (16 ≤ length d.old) × (16 ≤ length a.now) × (16 ≤ length b.now) }
    ensures { d.new ≡ take 16 (xor_bytes a.now b.now) ++ drop 16 d.old }
{
    let low = buffers::load_word(a, 0) ^ buffers::load_word(b, 0);
    let high = buffers::load_word(a, 8) ^ buffers::load_word(b, 8);
    buffers::store_word(d, 0, low);
    buffers::store_word(d, 8, high);
}

// Writes the XOR of a and b to d, as far as all three go. Bytes of d past that stay.
// 16 bytes, a block at n = 1, go as two words: of a loop over bytes the compiler makes a vector, which waits for the two words that were written just
// before. From 32 bytes on its vectors are ahead.
pub fn xor_to(d: &mut [u8], a: &[u8], b: &[u8])
    ensures { d.new ≡ take (length d.old) (xor_bytes a.now b.now) ++ drop (length (xor_bytes a.now b.now)) d.old }
{
    let m = d.len().min(a.len()).min(b.len());
    if m == 16 {
        return xor_two_words(d, a, b);
    }
    for i in 0..m {
        d[i] = a[i] ^ b[i];
    }
}

// Whether a and b are the same string. Of strings of one length every byte is compared, whatever those before it were.
pub fn equal(a: &[u8], b: &[u8]) -> bool
    ensures { result ≡ same a.now b.now }
{
    if a.len() != b.len() {
        return false;
    }
    let mut different = 0u8;
    for (x, y) in a.iter().zip(b) {
        different |= *x ^ *y;
    }
    different == 0
}
