// The refusals of wrapping and unwrapping a key. Their definitions are those of modes.
#![tactic(auto)]

ghost use Rattle.std.specs.Prelude.{◌≡◌, eqb, true};
ghost use Rattle.forms.specs.Refusals.{unless};
ghost use Rattle.labyrinth.specs.Refusals.{legal};
ghost use Rattle.modes.specs.Refusals.{sized, wrap_refusal, unwrap_refusal};

// Whether so many bytes are whole semiblocks, from low to top bytes.
fn is_sized(low: usize, top: usize, count: usize) -> bool
    ensures { result ≡ sized low top count }
{
    count % 8 == 0 && (low <= count && count <= top)
}

// The number by n and the length of the source, which goes from low to top.
fn source_refusal(low: usize, top: usize, n: usize, source: usize) -> u8
    ensures { result ≡ unless (legal n) 1 (unless (eqb n 1) 12 (unless (sized low top source) 17 0)) }
{
    if !labyrinth::is_legal(n) {
        return 1;
    }
    if n != 1 {
        return 12;
    }
    if !is_sized(low, top, source) {
        return 17;
    }
    0
}

// The number of wrapping a key, by n and the lengths of the source and the destination. No sum is made before the source is known to be short.
pub fn wrap_refusal(n: usize, source: usize, destination: usize) -> u8
    ensures { result ≡ wrap_refusal n source destination }
{
    let number = source_refusal(16, 128, n, source);
    if number != 0 {
        return number;
    }
    if destination != source + 8 {
        return 5;
    }
    0
}

// The number of unwrapping a key whose check value is right.
pub fn unwrap_refusal(n: usize, source: usize, destination: usize) -> u8
    ensures { result ≡ unwrap_refusal n source destination true }
{
    let number = source_refusal(24, 136, n, source);
    if number != 0 {
        return number;
    }
    if destination != source - 8 {
        return 5;
    }
    0
}
