// The word operations of the layer: substitution at each byte, and substitution and mixing at once by a merged table. The definitions are
// the crate field's.
#![tactic(auto)]

ghost use Rattle.std.specs.Prelude.{◌≡◌};
ghost use Rattle.forms.specs.Words.{each_byte};
ghost use Rattle.field.specs.Substitution.{sub};
ghost use Rattle.field.specs.Mixing as spec;
ghost use Rattle.field.specs.Merged.{lookup};
ghost use Rattle.field.specs.Published.{table1, row};

// The substitution s at each byte of a word.
pub fn substitute_bytes(s: &[u8; 256], w: u64) -> u64
    ensures { result ≡ each_byte (sub s.now) w }
{
    u64::from_le_bytes(w.to_le_bytes().map(|b| s[usize::from(b)]))
}

// The words of a table at the bytes of w, each rotated to its byte's place.
pub fn look_up(t: &[u64; 256], w: u64) -> u64
    ensures { result ≡ lookup t.now w }
{
    let mut r = 0u64;
    for j in 0..8 {
        r ^= arithmetic::rotate_left(t[usize::from(word_bytes::byte_at(w, j))], 8 * j);
    }
    r
}

// A word substituted and mixed, by the published tables.
pub fn substitute_and_mix(w: u64) -> u64
    ensures { result ≡ spec.mix row (each_byte (sub table1) w) }
{
    look_up(&tables::merged_table(), w)
}
