// Is a row good enough? (document 02, Job 6; the article's 1.2: is its matrix CMBN?) A word that falls short has eight zeros or more among its
// eight bytes and the eight of the word mixed. So eight of the sixteen are asked to be zero, every choice of eight in turn, and the row is good
// enough exactly when no choice leaves a word but zero. The words that are left are the products of a matrix a with all words, the eight
// unknowns: at first every word. A byte that is asked to be zero is an equation in the unknowns; one of them is worked out of it and put in
// everywhere.
#![tactic(auto)]

ghost use Rattle.std.specs.Prelude.{◌≡◌, ℕ, ◌≤◌, ◌<◌, MatchOption, get_or};
ghost use Rattle.field.specs.Mixing.{dot, mix_by};
ghost use Rattle.judge.specs.Judge.{Judged};
ghost use Rattle.judge.specs.Elimination.{combined, cleared, Zeros, Pivot, Restricted, sixteen, Left, Found};

// ---- rows

// The row x plus c times the row y.
fn add_times(x: [u8; 8], c: u8, y: [u8; 8]) -> [u8; 8]
    ensures { result ≡ combined x c y }
{
    rows::row_of(u64::from_le_bytes(x) ^ arithmetic::times_each(u64::from_le_bytes(y), c))
}

// The place of a row's first element that is not 0, if there is one.
fn pivot(y: [u8; 8]) -> Option<usize>
    ensures { MatchOption result (Zeros y) (Pivot y) }
{
    y.iter().position(|element| *element != 0)
}

// ---- the elimination

// To every row of a its element p times the row y is added; y has a 1 there, so that the unknown p goes out.
fn clear_column(a: [[u8; 8]; 8], p: usize, y: [u8; 8]) -> [[u8; 8]; 8]
    requires { p < 8 }
    ensures { result ≡ cleared a p y }
{
    a.map(
        |x|
            requires { p < 8 }
            ensures { result ≡ combined x (get_or x p 0) y }
        { add_times(x, x[p], y) },
    )
}

// Of the words that a gives, those at whose unknowns the row y gives 0.
fn restrict(a: [[u8; 8]; 8], y: [u8; 8]) -> [[u8; 8]; 8]
    ensures { Restricted a y result }
{
    let Some(p) = pivot(y) else {
        return a;
    };
    let c = arithmetic::power(y[p], 254);
    clear_column(a, p, add_times([0u8; 8], c, y))
}

// A row times a matrix.
fn row_times(x: [u8; 8], a: [[u8; 8]; 8]) -> [u8; 8]
    ensures { (w : ℕ) → dot result w ≡ dot x (mix_by a w) }
{
    let mut r = [0u8; 8];
    for k in 0..8 {
        let sum = add_times(r, x[k], a[k]);
        r = sum;
    }
    r
}

// The row that gives byte z of the sixteen: of the words that a gives, then of these mixed by m.
fn byte_row(m: [[u8; 8]; 8], a: [[u8; 8]; 8], z: usize) -> [u8; 8]
    requires { z < 16 }
    ensures { (w : ℕ) → dot result w ≡ sixteen m (mix_by a w) z }
{
    if z < 8 {
        return a[z];
    }
    row_times(m[z - 8], a)
}

// A word but zero that a gives; zero if there is none.
fn word_left(a: [[u8; 8]; 8]) -> u64
    ensures { Left a result }
{
    for row in &a {
        if let Some(p) = pivot(*row) {
            return matrices::mix_by(a, 1u64 << (8 * p));
        }
    }
    0
}

// ---- the search

// A word but zero that a gives with n zeros or more among the first z of the sixteen bytes; zero if there is none.
fn search(m: [[u8; 8]; 8], a: [[u8; 8]; 8], n: usize, z: usize) -> u64
    requires { z ≤ 16 }
    ensures { Found m a n z result }
{
    if n == 0 {
        return word_left(a);
    }
    if z < n {
        return 0;
    }
    let r = search(m, restrict(a, byte_row(m, a, z - 1)), n - 1, z - 1);
    if r != 0 {
        return r;
    }
    search(m, a, n, z - 1)
}

// What the judge answers: yes or no, and with a no a word that falls short, with a yes the zero word.
#[derive(Clone, Copy)]
pub struct Verdict {
    pub yes: bool,
    pub word: u64,
}

// Is a row good enough?
pub fn judge(g: [u8; 8]) -> Verdict
    ensures { Judged g result }
{
    let every = matrices::matrix([1, 0, 0, 0, 0, 0, 0, 0]);
    let w = search(matrices::matrix(g), every, 8, 16);
    Verdict {
        yes: w == 0,
        word: w,
    }
}
