// Substitutions spaced out, so that a word is substituted by eight loads and seven XORs.
#![tactic(auto)]

ghost use Rattle.std.specs.Prelude.{◌≡◌, ℕ, ◌+◌, ◌-◌, ◌*◌, ◌^◌, ◌<◌, get_or, length, replicate};
ghost use Rattle.forms.specs.Words.{byte, join};
ghost use Rattle.labyrinth.specs.Groups.{spaced_sub};
ghost use Rattle.labyrinth.specs.Groups.{spaced as spacedOut};

// Puts byte x of s at place 8x + 7.
fn space(s: &[u8], d: &mut [u8; 2056])
    requires { (length s.now ≡ 256) × (d.old ≡ replicate 2056 0) }
    ensures table { d.new ≡ spacedOut s.now }
    ensures bytes { (i : ℕ) → get_or s.now i 0 < 2 ^ 8 }
{
    for (i, b) in s.iter().enumerate() {
        d[8 * i + 7] = *b;
    }
}

// A substitution spaced out.
pub fn spaced(s: &[u8; 256]) -> [u8; 2056]
    ensures table { result ≡ spacedOut s.now }
    ensures bytes { (i : ℕ) → get_or s.now i 0 < 2 ^ 8 }
{
    let mut d = [0u8; 2056];
    space(s, &mut d);
    d
}

// The word that a spaced substitution has for byte k of a word.
fn shifted(s: &[u8; 2056], w: u64, k: usize) -> u64
    requires { k < 8 }
    ensures { result ≡ join 8 (λ b. get_or s.now (8 * byte w k + 7 - k + b) 0) }
{
    let byte = usize::from(word_bytes::byte_at(w, k));
    buffers::load_word(s, 8 * byte + 7 - k)
}

// All eight together: the word substituted.
pub fn substitute(s: &[u8; 2056], w: u64) -> u64
    ensures { result ≡ spaced_sub s.now w }
{
    (shifted(s, w, 0) ^ shifted(s, w, 1) ^ shifted(s, w, 2) ^ shifted(s, w, 3))
        ^ (shifted(s, w, 4) ^ shifted(s, w, 5) ^ shifted(s, w, 6) ^ shifted(s, w, 7))
}
