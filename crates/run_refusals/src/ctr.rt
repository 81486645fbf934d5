// The refusals of a CTR run.

ghost use Rattle.std.specs.Prelude.{◌≡◌};
ghost use Rattle.modes.specs.Refusals.{ctr_refusal};

// The number of a CTR run, by n and the lengths of the start block, the source and the destination.
pub fn ctr_refusal(n: usize, start: usize, source: usize, destination: usize) -> u8
    ensures { result ≡ ctr_refusal n start source destination }
{
    if !labyrinth::is_legal(n) {
        return 1;
    }
    if start != 16 * n {
        return 6;
    }
    if destination != source {
        return 5;
    }
    0
}
