// How many bytes of a word are not zero.
#![tactic(auto)]

ghost use Rattle.std.specs.Prelude.{◌≡◌};
ghost use Rattle.judge.specs.Judge.{active_bytes};

// How many of a word's bytes are not zero.
pub fn active_bytes(w: u64) -> u32
    ensures { result ≡ active_bytes w }
{
    w.to_le_bytes().iter().filter(|byte| **byte != 0).count() as u32
}
