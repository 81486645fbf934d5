// The refusals of CMAC.

ghost use Rattle.std.specs.Prelude.{◌≡◌};
ghost use Rattle.modes.specs.Refusals.{cmac_refusal};

// The number of making or verifying a tag, by n and the tag's length.
pub fn cmac_refusal(n: usize, tag: usize) -> u8
    ensures { result ≡ cmac_refusal n tag }
{
    if !labyrinth::is_legal(n) {
        return 1;
    }
    if n != 1 {
        return 12;
    }
    if tag < 8 {
        return 11;
    }
    let long = 16 < tag;
    if long {
        return 11;
    }
    0
}
