// The schedule: the subkeys laid out in the order of their use, twenty half-blocks: IT low and high, the
// sixteen rounds, FT low and high. So the rest of the code is the same for both directions.
#![tactic(auto)]

ghost use Rattle.std.specs.Prelude.{◌≡◌, ◌++◌, ◌+◌, ◌≤◌, ◌<◌, length, get_or, take, drop};
ghost use Rattle.forms.specs.Lists.{words_from};
ghost use Rattle.labyrinth.specs.Keys.{order as roundOrder};
ghost use Rattle.labyrinth.specs.Working.{Size, use_order};
ghost use Rattle.labyrinth.specs.Working.{schedule as laidOut};

use labyrinth::WorkingKey;

// The subkey numbers of the sixteen rounds.
const ORDER: [usize; 16] = [0, 1, 2, 3, 4, 5, 6, 7, 0, 3, 6, 1, 4, 7, 2, 5];

// The number of the subkey at place i of the schedule, enciphering or, with back, deciphering: the rounds' numbers are
// read forwards or backwards.
fn subkey(order: &[usize; 16], back: bool, i: usize) -> usize
    requires { (i < 20) × (order.now ≡ roundOrder) }
    ensures { result ≡ get_or (use_order back) i 0 }
{
    match i {
        0 => if back { 3 } else { 4 },
        1 => if back { 6 } else { 7 },
        18 => if back { 4 } else { 3 },
        19 => if back { 7 } else { 6 },
        _ => if back { order[17 - i] } else { order[i - 2] },
    }
}

// Lays n words of a working key, from a place on, into a schedule.
fn lay(n: usize, ks: &mut [u64; 80], at: usize, words: &[u64; 32], from: usize)
    requires { (at + n ≤ 80) × (from + n ≤ 32) × (length ks.old ≡ 80) }
    ensures { ks.new ≡ take at ks.old ++ (words_from n from words.now ++ drop (at + n) ks.old) }
{
    ks[at..at + n].copy_from_slice(&words[from..from + n]);
}

// The schedule for a legal n.
fn lay_all(n: usize, words: [u64; 32], back: bool) -> [u64; 80]
    requires { Size n }
    ensures { result ≡ laidOut n words back }
{
    let order = ORDER;
    let mut ks = [0u64; 80];
    for i in 0..20 {
        lay(n, &mut ks, i * n, &words, subkey(&order, back, i) * n);
    }
    ks
}

// The schedule of a working key; zeros for an illegal n.
pub fn schedule(k: WorkingKey, back: bool) -> [u64; 80]
    ensures { result ≡ laidOut k.n k.words back }
{
    let n = k.n;
    let words = k.words;
    if labyrinth::is_legal(n) {
        lay_all(n, words, back)
    } else {
        [0; 80]
    }
}
