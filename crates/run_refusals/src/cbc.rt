// The refusals of a CBC run.

ghost use Rattle.std.specs.Prelude.{◌≡◌};
ghost use Rattle.modes.specs.Refusals.{cbc_refusal};

// The number of a CBC run, by n and the lengths of the start block, the source and the destination. No product is made
// before n is known to be small.
pub fn cbc_refusal(n: usize, start: usize, source: usize, destination: usize) -> u8
    ensures { result ≡ cbc_refusal n start source destination }
{
    if !labyrinth::is_legal(n) {
        return 1;
    }
    if start != 16 * n {
        return 6;
    }
    if source % (16 * n) != 0 {
        return 4;
    }
    if destination != source {
        return 5;
    }
    0
}
