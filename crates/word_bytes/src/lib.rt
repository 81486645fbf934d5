// The bytes of a word.
#![tactic(auto)]

ghost use Rattle.std.specs.Prelude.{◌≡◌};
ghost use Rattle.forms.specs.Words.{byte};

// Byte i of a word; past its eight bytes, 0.
// By a shift, as `to_le_bytes().get(i)` is compiled to a store of the word and a load where i is known only when it runs.
#[tactic(auto, using(forms::proofs::Words::byte_past), unfolding(forms::specs::Words::byte))]
pub fn byte_at(w: u64, i: usize) -> u8
    ensures { result ≡ byte w i }
{
    if 8 <= i {
        return 0;
    }
    ((w >> (8 * i)) % 256) as u8
}
