// Words of 64 bits and the product in the field GF(2^8). The definitions are the crate field's.
#![tactic(auto)]

ghost use Rattle.std.specs.Prelude.{◌≡◌, ◌%◌};
ghost use Rattle.forms.specs.Words.{rotl, each_byte};
ghost use Rattle.field.specs.Field.{times_x, mul};
ghost use Rattle.field.specs.Field as spec;
ghost use Rattle.field.specs.Mixing.{scale};
ghost use Rattle.arithmetic.specs.BitLength.{bit_length};

// ---- words

// A word rotated left by k bits, k taken modulo 64.
pub fn rotate_left(w: u64, k: usize) -> u64
    ensures { result ≡ rotl w (k % 64) }
{
    let s = k % 64;
    w.rotate_left(s as u32)
}

// ---- the field

// A byte times x.
fn times_x(a: u8) -> u8
    ensures { result ≡ times_x a }
{
    (a << 1) ^ ((a >> 7) * 0x2D)
}

// The number of a byte's bits up to its highest one, none for 0.
fn bit_length(b: u8) -> u32
    ensures { result ≡ bit_length 8 b }
{
    8 - b.leading_zeros()
}

// A product, and how many turns the loop took that made it.
#[derive(Clone, Copy)]
pub struct Product {
    pub value: u8,
    pub turns: u32,
}

// The product of a by the multiplier b. The loop ends after the highest one of b, and counts its turns itself: so the clause speaks of them, and
// not of where they were to end.
pub fn times(a: u8, b: u8) -> Product
    ensures value { result.value ≡ mul a b }
    ensures turns { result.turns ≡ bit_length 8 b }
{
    let end = bit_length(b);
    let mut value = 0u8;
    let mut x = a;
    let mut y = b;
    let mut turns = 0u32;
    for _ in 0..end {
        value ^= (y % 2) * x;
        x = times_x(x);
        y /= 2;
        turns += 1;
    }
    Product { value, turns }
}

// A byte to the power n, by squares. A `while`, as m halves in each turn and the loop ends after its highest one.
pub fn power(a: u8, n: u32) -> u8
    ensures { result ≡ spec.power a n }
{
    let mut value = 1u8;
    let mut x = a;
    let mut m = n;
    while m != 0 {
        let odd = m % 2 == 1;
        if odd {
            value = times(value, x).value;
        }
        x = times(x, x).value;
        m /= 2;
    }
    value
}

// ---- every byte of a word at once

// Every byte of a word times x.
pub fn times_x_each(w: u64) -> u64
    ensures { result ≡ each_byte times_x w }
{
    let h = (w >> 7) & 0x0101010101010101;
    ((w & 0x7F7F7F7F7F7F7F7F) << 1) ^ h ^ (h << 2) ^ (h << 3) ^ (h << 5)
}

// Every byte of a word multiplied by c. Eight turns always, which take no branch that depends on c.
pub fn times_each(w: u64, c: u8) -> u64
    ensures { result ≡ scale c w }
{
    let mut value = 0u64;
    let mut x = w;
    let mut y = c;
    for _ in 0..u8::BITS {
        value ^= u64::from(y % 2) * x;
        x = times_x_each(x);
        y /= 2;
    }
    value
}
