// The library as C sees it, in rows: two functions mix a word, two make a row, and one judges a row. include/labyrinth.h declares them.
#![tactic(auto)]

ghost use Rattle.std.specs.Prelude.{◌≡◌, length};
ghost use Rattle.forms.specs.Refusals.{outcome};
ghost use Rattle.field.specs.Mixing.{mix, product};
ghost use Rattle.field.specs.Published.{row};
ghost use Rattle.rows.specs.Rows.{mixed};
ghost use Rattle.rows.specs.Inverse.{inverse_row};
ghost use Rattle.one_shot.specs.OneShot.{row_number, product_number, inverse_number, judge_number, VerdictGiven};

// Mixes a word by the published row.
#[unsafe(no_mangle)]
pub extern "C" fn labyrinth_mix(word: u64) -> u64
    ensures { result ≡ mix row word }
{
    let m = rows::mix(published::row(), word);
    m.word
}

// A row of eight bytes.
fn eight(row: &[u8]) -> [u8; 8]
    requires { length row.now ≡ 8 }
    ensures { result ≡ row.now }
{
    [
        row[0], row[1], row[2], row[3], row[4], row[5], row[6], row[7],
    ]
}

// Mixes a word by a row. Every call sets out.
#[unsafe(no_mangle)]
pub extern "C" fn labyrinth_mix_row(row: &[u8], word: u64, out: &mut u64) -> u8
    ensures number { result ≡ row_number row.now }
    ensures word { out.new ≡ (mixed row.now word result).word }
{
    if row.len() != 8 {
        *out = 0;
        return 4;
    }
    let m = rows::mix(eight(row), word);
    *out = m.word;
    m.number
}

// Puts a row into a buffer of its length.
fn put_row(r: [u8; 8], dst: &mut [u8])
    requires { length dst.old ≡ 8 }
    ensures { dst.new ≡ r }
{
    strings::copy_into(dst, &r);
}

// The product of two rows.
#[unsafe(no_mangle)]
pub extern "C" fn labyrinth_row_product(g: &[u8], h: &[u8], dst: &mut [u8]) -> u8
    ensures number { result ≡ product_number g.now h.now (length dst.old) }
    ensures row { dst.new ≡ outcome result (product g.now h.now) dst.old }
{
    if g.len() != 8 {
        return 4;
    }
    if h.len() != 8 {
        return 4;
    }
    if dst.len() != 8 {
        return 5;
    }
    put_row(rows::product(eight(g), eight(h)), dst);
    0
}

// The inverse of a row.
#[unsafe(no_mangle)]
pub extern "C" fn labyrinth_row_inverse(row: &[u8], dst: &mut [u8]) -> u8
    ensures number { result ≡ inverse_number row.now (length dst.old) }
    ensures row { dst.new ≡ outcome result (inverse_row row.now) dst.old }
{
    if row.len() != 8 {
        return 4;
    }
    let found = rows::inverse(eight(row));
    let refused = found.number != 0;
    if refused {
        return found.number;
    }
    if dst.len() != 8 {
        return 5;
    }
    let inverse = found.row;
    put_row(inverse, dst);
    0
}

// Judges a row: is it good enough? Every call sets yes and word.
#[unsafe(no_mangle)]
pub extern "C" fn labyrinth_row_judge(row: &[u8], yes: &mut u8, word: &mut u64) -> u8
    ensures number { result ≡ judge_number row.now }
    ensures verdict { VerdictGiven row.now result yes.new word.new }
{
    if row.len() != 8 {
        *yes = 0;
        *word = 0;
        return 4;
    }
    let v = judge::judge(eight(row));
    *yes = one_shot::as_byte(v.yes);
    *word = v.word;
    0
}
