// The refusals of a block and of an expansion. The definitions are the crate labyrinth's.
#![tactic(auto)]

ghost use Rattle.std.specs.Prelude.{◌≡◌};
ghost use Rattle.labyrinth.specs.Refusals.{legal_length, block_refusal, expand_refusal, under_length};

// Whether l is 2, 3 or 4.
fn is_legal_length(l: usize) -> bool
    ensures { result ≡ legal_length l }
{
    if l == 2 {
        return true;
    }
    if l == 3 {
        return true;
    }
    l == 4
}

// The number of a block operation, by n and the lengths of the source and the destination.
pub fn block_refusal(n: usize, source: usize, destination: usize) -> u8
    ensures { result ≡ block_refusal n source destination }
{
    if !labyrinth::is_legal(n) {
        return 1;
    }
    if source != 16 * n {
        return 4;
    }
    if destination != 16 * n {
        return 5;
    }
    0
}

// The number of an expansion, by n, l and the length of the key. No product is made before n and l are known to be small.
pub fn expand_refusal(n: usize, l: usize, key: usize) -> u8
    ensures { result ≡ expand_refusal n l key }
{
    if !labyrinth::is_legal(n) {
        return 1;
    }
    if !is_legal_length(l) {
        return 2;
    }
    if key != 8 * (n * l) {
        return 3;
    }
    0
}

// The number of an expansion for a set: 15 comes right after 2.
pub fn under_length(n: usize, l: usize, loaded: bool, number: u8) -> u8
    ensures { result ≡ under_length n l loaded number }
{
    if !labyrinth::is_legal(n) {
        return 1;
    }
    if !is_legal_length(l) {
        return 2;
    }
    if !loaded {
        return 15;
    }
    number
}
