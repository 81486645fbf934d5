// The records of the cipher, the exchange of the halves, whether n is legal, and the refusal of every working key. Its definitions stand in specs/, its laws in proofs/.
#![tactic(auto)]

ghost use Rattle.std.specs.Prelude.{◌≡◌};
ghost use Rattle.labyrinth.specs.Refusals.{legal, under_key};

// A working key: half-block k_j, j = 0 to 7, is words jn to jn + n - 1, and it names its set of tables. One made by hand is
// taken too; its n and its set are never adjusted.
#[derive(Clone, Copy)]
pub struct WorkingKey {
    pub n: usize,
    pub set: usize,
    pub words: [u64; 32],
}

// What expansion answers: document 01's number, and the key.
#[derive(Clone, Copy)]
pub struct Expanded {
    pub number: u8,
    pub key: WorkingKey,
}

// The two halves of a block in the code, of which n words each are used and the others are 0.
#[derive(Clone, Copy)]
pub struct Halves {
    pub high: [u64; 4],
    pub low: [u64; 4],
}

// The halves change places.
pub fn exchange(h: Halves) -> Halves
    ensures { result ≡ record { high = h.low; low = h.high } }
{
    let high = h.low;
    let low = h.high;
    Halves {
        high: high,
        low: low,
    }
}

// Whether n is 1, 2 or 4.
pub fn is_legal(n: usize) -> bool
    ensures { result ≡ legal n }
{
    if n == 1 {
        return true;
    }
    let two = n == 2;
    if two {
        return true;
    }
    n == 4
}

// The number of an operation under a working key, by n, whether the set that the key names is loaded, and the operation's own number: 15
// comes right after 1.
pub fn under_key(n: usize, loaded: bool, number: u8) -> u8
    ensures { result ≡ under_key n loaded number }
{
    if !is_legal(n) {
        return 1;
    }
    if !loaded {
        return 15;
    }
    number
}
