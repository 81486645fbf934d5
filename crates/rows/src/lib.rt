// What takes rows of eight coefficients (document 02, Jobs 4 and 5): mixing a word, making the merged table, the product of two rows and the
// inverse row. The field stays 12D. A row whose coefficients XOR to zero gets 13; the product takes any rows.
#![tactic(auto)]

ghost use Rattle.std.specs.Prelude.{◌≡◌, length};
ghost use Rattle.forms.specs.Lists.{tabulate, iterate};
ghost use Rattle.forms.specs.Words.{byte};
ghost use Rattle.field.specs.Mixing as spec;
ghost use Rattle.forms.specs.Refusals.{outcome};
ghost use Rattle.field.specs.Mixing.{row_sum};
ghost use Rattle.field.specs.Merged.{merged};
ghost use Rattle.field.specs.Published.{table1};
ghost use Rattle.rows.specs.Rows.{row_refusal, table_refusal, mixed};
ghost use Rattle.rows.specs.Inverse.{inverted};

// The XOR of a row's coefficients.
fn row_sum(g: [u8; 8]) -> u8
    ensures { result ≡ row_sum g }
{
    let mut sum = 0u8;
    for coefficient in &g {
        sum ^= *coefficient;
    }
    sum
}

// The number for a row: 13 if its coefficients XOR to zero.
pub fn row_refusal(g: [u8; 8]) -> u8
    ensures { result ≡ row_refusal g }
{
    let singular = row_sum(g) == 0;
    if singular {
        return 13;
    }
    0
}

// What mixing answers: the number, and the mixed word, or the zero word on a refusal.
#[derive(Clone, Copy)]
pub struct Mixed {
    pub number: u8,
    pub word: u64,
}

// A word mixed by a row.
pub fn mix(g: [u8; 8], w: u64) -> Mixed
    ensures { result ≡ mixed g w (row_refusal g) }
{
    let number = row_refusal(g);
    if number != 0 {
        return Mixed { number, word: 0 };
    }
    Mixed {
        number: 0,
        word: row_mixing::mix_row(g, w),
    }
}

// Fills a table with the merged words of a row and a substitution. The byte 1 is mixed to the row as a word, g_0 lowest.
fn fill(g: [u8; 8], s: &[u8; 256], table: &mut [u64])
    requires { length table.old ≡ 256 }
    ensures { table.new ≡ merged g s.now }
{
    let row = row_mixing::mix_row(g, 1);
    for (b, entry) in table.iter_mut().enumerate() {
        *entry = arithmetic::times_each(row, s[b]);
    }
}

// The merged table of any row and substitution.
pub fn table_of(g: [u8; 8], s: &[u8; 256]) -> [u64; 256]
    ensures { result ≡ merged g s.now }
{
    let mut t = [0u64; 256];
    fill(g, s, &mut t);
    t
}

// Makes the merged table of a row and the published substitution.
pub fn make_table(g: [u8; 8], table: &mut [u64]) -> u8
    ensures number { result ≡ table_refusal g (length table.old) }
    ensures table { table.new ≡ outcome result (merged g table1) table.old }
{
    let number = row_refusal(g);
    if number != 0 {
        return number;
    }
    if table.len() != 256 {
        return 5;
    }
    fill(g, &published::sbox(), table);
    0
}

// ---- rows multiply

// The row whose coefficients are the bytes of a word, the lowest first.
pub fn row_of(w: u64) -> [u8; 8]
    ensures { result ≡ tabulate 8 (byte w) }
{
    w.to_le_bytes()
}

// The product of two rows modulo x^8 + 1: the word of the one mixed by the other.
pub fn product(g: [u8; 8], h: [u8; 8]) -> [u8; 8]
    ensures { result ≡ spec.product g h }
{
    row_of(row_mixing::mix_row(h, u64::from_le_bytes(g)))
}

// A row to the power n, as a word: as often mixed, from the row 01 and seven 00.
fn power(g: [u8; 8], n: usize) -> u64
    ensures { result ≡ iterate n (spec.mix g) 1 }
{
    let mut w = 1u64;
    for _ in 0..n {
        w = row_mixing::mix_row(g, w);
    }
    w
}

// What inversion answers: the number, and the inverse row, or the zero row on a refusal.
#[derive(Clone, Copy)]
pub struct Inverted {
    pub number: u8,
    pub row: [u8; 8],
}

// The inverse row: the seventh power divided by the eighth, which is the constant row of the eighth power of the coefficients' XOR.
pub fn inverse(g: [u8; 8]) -> Inverted
    ensures { result ≡ inverted g (row_refusal g) }
{
    let sum = row_sum(g);
    if sum == 0 {
        return Inverted {
            number: 13,
            row: [0u8; 8],
        };
    }
    let eighth = arithmetic::power(sum, 8);
    let reciprocal = arithmetic::power(eighth, 254);
    let row = row_of(arithmetic::times_each(power(g, 7), reciprocal));
    Inverted { number: 0, row }
}
