// Mixing by a row, by the powers of x that its coefficients are made of. The definitions are the crate field's.
#![tactic(auto)]

ghost use Rattle.std.specs.Prelude.{◌≡◌, ◌*◌, ◌/◌, ◌%◌, ◌^◌, get_or};
ghost use Rattle.forms.specs.Lists.{tabulate, xor_sum, iterate};
ghost use Rattle.forms.specs.Words.{each_byte};
ghost use Rattle.field.specs.Field.{times_x};
ghost use Rattle.field.specs.Mixing as spec;

// A word times x^0 to x^7, at every byte.
fn powers(w: u64) -> [u64; 8]
    ensures { result ≡ tabulate 8 (λ t. iterate t (each_byte times_x) w) }
{
    let mut p = [0u64; 8];
    let mut x = w;
    for power in &mut p {
        *power = x;
        x = arithmetic::times_x_each(x);
    }
    p
}

// The XOR of the powers at the bits of c that are 1.
fn at_bits(p: [u64; 8], c: u8) -> u64
    ensures { result ≡ xor_sum 8 (λ t. c / 2 ^ t % 2 * get_or p t 0) }
{
    let mut r = 0u64;
    for t in 0..8 {
        r ^= u64::from((c >> t) % 2) * p[t];
    }
    r
}

// A word mixed by a row, without its matrix: the products by the coefficients, which share the word's powers, each rotated to its
// coefficient's place.
pub fn mix_row(g: [u8; 8], w: u64) -> u64
    ensures { result ≡ spec.mix g w }
{
    let p = powers(w);
    let mut r = 0u64;
    for k in 0..8 {
        r ^= arithmetic::rotate_left(at_bits(p, g[k]), 8 * k);
    }
    r
}
