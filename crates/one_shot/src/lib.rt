// What the functions for C say beyond the operations' own contracts (specs/OneShot.antt), with its laws (proofs/): a key expanded and used at
// once, and a row that has a length.
#![tactic(auto)]

ghost use Rattle.std.specs.Prelude.{◌≡◌};
ghost use Rattle.one_shot.specs.OneShot.{yes_byte};

// A yes as a byte.
pub fn as_byte(yes: bool) -> u8
    ensures { result ≡ yes_byte 0 yes }
{
    if yes { 1 } else { 0 }
}
