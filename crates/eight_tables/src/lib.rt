// A merged table as eight tables: what a long run is lent, so that no word is rotated at each look-up.
#![tactic(auto)]

ghost use Rattle.std.specs.Prelude.{◌≡◌, ◌&&◌, ℕ, ◌*◌, ◌/◌, ◌%◌, ◌^◌, ◌<◌, eqb, get_or, length, replicate};
ghost use Rattle.forms.specs.Lists.{tabulate, when};
ghost use Rattle.forms.specs.Words.{rotl};
ghost use Rattle.labyrinth.specs.Working.{eight_tables};
ghost use Rattle.labyrinth.specs.Working.{pays as worthWider};

// Where the eight tables go.
pub fn zeros() -> [u64; 2048]
    ensures { result ≡ replicate 2048 0 }
{
    [0; 2048]
}

// Puts word i of each of the eight tables: x, rotated to a byte's place.
fn spread(x: u64, i: usize, w: &mut [u64])
    requires { (i < 256) × (length w.old ≡ 2048) }
    ensures { w.new ≡ tabulate 2048 (λ k. when (eqb (k % 256) i) (rotl x (8 * (k / 256))) (get_or w.old k 0)) }
{
    for b in 0..8 {
        w[256 * b + i] = arithmetic::rotate_left(x, 8 * b);
    }
}

// Fills w with the eight tables of t, where the lengths are right.
fn fill_words(t: &[u64], w: &mut [u64])
    requires { (length t.now ≡ 256) × (length w.old ≡ 2048) }
    ensures table { w.new ≡ eight_tables t.now }
    ensures words { (i : ℕ) → get_or t.now i 0 < 2 ^ 64 }
{
    for (i, x) in t.iter().enumerate() {
        spread(*x, i, w);
    }
}

// Fills w with the eight tables of t; nothing where t isn't 256 words or w isn't 2048.
pub fn fill(t: &[u64], w: &mut [u64])
    ensures table { w.new ≡ when (eqb (length t.now) 256 && eqb (length w.old) 2048) (eight_tables t.now) w.old }
    ensures words { (i : ℕ) → get_or t.now i 0 < 2 ^ 64 }
{
    if t.len() == 256 && w.len() == 2048 {
        fill_words(t, w);
    }
}

// Whether the wider forms pay for a string of so many bytes.
pub fn pays(count: usize) -> bool
    ensures { result ≡ worthWider count }
{
    1024 <= count
}
