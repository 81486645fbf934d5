// What the tape's commands do to their operands: a word of 8 bytes is mixed, and unused bytes must be zero.
#![tactic(auto)]

ghost use Rattle.std.specs.Prelude.{◌≡◌};
ghost use Rattle.forms.specs.Words.{words, bytes};
ghost use Rattle.field.specs.Mixing.{mix};
ghost use Rattle.field.specs.Published.{row};
ghost use Rattle.labyrinth.specs.Blocks.{each};
ghost use Rattle.operands.specs.Operands as spec;

// Mixes the word of 8 bytes by the published row.
pub fn mix_bytes(b: &[u8; 8]) -> [u8; 8]
    ensures { result ≡ bytes 1 (each 1 (mix row) (words 1 b.now)) }
{
    let m = rows::mix(published::row(), u64::from_le_bytes(*b));
    m.word.to_le_bytes()
}

// Whether every byte is zero.
pub fn zeros(s: &[u8]) -> bool
    ensures { result ≡ spec.zeros s.now }
{
    s.iter().all(|x| *x == 0)
}
