// Whether 256 bytes are a substitution, and the inverse of one.
#![tactic(auto)]

ghost use Rattle.std.specs.Prelude.{◌≡◌};
ghost use Rattle.field.specs.Substitution.{different};
ghost use Rattle.substitutions.specs.Inverse.{inverse_bytes};

// Whether s is 256 different bytes.
pub fn is_different(s: &[u8]) -> bool
    ensures { result ≡ different s.now }
{
    if s.len() != 256 {
        return false;
    }
    let mut seen = [false; 256];
    for i in (0..256).rev() {
        let x = usize::from(s[i]);
        if seen[x] {
            return false;
        }
        seen[x] = true;
    }
    true
}

// The inverse of a substitution, where it is 256 different bytes. From the end, so the first place of a byte stays.
pub fn inverse(s: &[u8; 256]) -> [u8; 256]
    ensures { result ≡ inverse_bytes s.now }
{
    let mut r = [0u8; 256];
    for at in (0..256).rev() {
        let x = usize::from(s[at]);
        r[x] = at as u8;
    }
    r
}
