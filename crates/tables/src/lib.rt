// The merged words of the published substitution and row, and the substitution at a byte. The definitions are the crate field's.
#![tactic(auto)]

mod merged;

ghost use Rattle.std.specs.Prelude.{◌≡◌};
ghost use Rattle.field.specs.Substitution.{sub, sub_inv};
ghost use Rattle.field.specs.Published as published;

pub use merged::merged_table;

// S of a byte.
pub fn substitute(b: u8) -> u8
    ensures { result ≡ sub published.table1 b }
{
    let s = published::sbox();
    s[usize::from(b)]
}

// The inverse of S at a byte.
pub fn substitute_inverse(b: u8) -> u8
    ensures { result ≡ sub_inv published.table1 b }
{
    let inverse = published::sbox_inverse();
    inverse[usize::from(b)]
}
