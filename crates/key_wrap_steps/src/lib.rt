// The steps of key wrapping KW (NIST SP 800-38F, section 6.1) over what is lent: W and its inverse, on A and the semiblocks behind it.
//
// A semiblock R_i stays in its place, and the steps go round instead. Each inner function is stated over the block map m that what is lent gives.
#![tactic(auto)]

ghost use Rattle.std.specs.Prelude.{◌≡◌, List, ◌++◌, ℕ, ◌+◌, ◌-◌, ◌/◌, ◌%◌, ◌≤◌, ◌<◌, length};
ghost use Rattle.forms.specs.Refusals.{outcome};
ghost use Rattle.forms.specs.Strings.{xor_bytes, string};
ghost use Rattle.labyrinth.specs.Lent.{lent};
ghost use Rattle.modes.specs.KeyWrap.{MSB64, LSB64, W, W⁻¹, unwrap_steps};
ghost use Rattle.key_wrap_steps.specs.Steps.{steps_refusal, wrap_more};

// XORs the number of a step into A.
fn count_into(a: &mut [u8], number: u8)
    requires { length a.old ≡ 8 }
    ensures { a.new ≡ xor_bytes a.old (string 8 number) }
{
    a[7] = a[7] ^ number;
}

// Maps the block of two semiblocks: its first half goes to a, its second to r.
fn map_halves(
    t: &[u64; 256],
    s: &[u8; 256],
    u: &[u8; 256],
    ks: &[u64; 80],
    a: &mut [u8],
    r: &mut [u8],
)
    requires { (length a.old ≡ 8) × (length r.old ≡ 8) }
    ensures first { let m : List ℕ → List ℕ = lent 1 t.now s.now u.now ks.now in a.new ≡ MSB64 (m (a.old ++ r.old)) }
    ensures second { let m : List ℕ → List ℕ = lent 1 t.now s.now u.now ks.now in r.new ≡ LSB64 (m (a.old ++ r.old)) }
{
    let mut block = [0u8; 16];
    strings::copy_into(&mut block, a);
    strings::copy_into(&mut block[8..], r);
    let mut mapped = [0u8; 16];
    table_cipher::map_block(t, s, u, 1, ks, &block, &mut mapped);
    strings::copy_into(a, &mapped);
    strings::copy_into(r, &mapped[8..]);
}

// A step of wrapping, on A and the R_i that is R_2 now.
fn wrap_step(
    t: &[u64; 256],
    s: &[u8; 256],
    u: &[u8; 256],
    ks: &[u64; 80],
    a: &mut [u8],
    r: &mut [u8],
    number: u8,
)
    requires { (length a.old ≡ 8) × (length r.old ≡ 8) }
    ensures first { let m : List ℕ → List ℕ = lent 1 t.now s.now u.now ks.now in a.new ≡ xor_bytes (MSB64 (m (a.old ++ r.old))) (string 8 number) }
    ensures second { let m : List ℕ → List ℕ = lent 1 t.now s.now u.now ks.now in r.new ≡ LSB64 (m (a.old ++ r.old)) }
{
    map_halves(t, s, u, ks, a, r);
    count_into(a, number);
}

// A step of unwrapping, on A and the R_i that is R_n now.
fn unwrap_step(
    t: &[u64; 256],
    s: &[u8; 256],
    u: &[u8; 256],
    ks: &[u64; 80],
    a: &mut [u8],
    r: &mut [u8],
    number: u8,
)
    requires { (length a.old ≡ 8) × (length r.old ≡ 8) }
    ensures first { let m : List ℕ → List ℕ = lent 1 t.now s.now u.now ks.now in a.new ≡ MSB64 (m (xor_bytes a.old (string 8 number) ++ r.old)) }
    ensures second { let m : List ℕ → List ℕ = lent 1 t.now s.now u.now ks.now in r.new ≡ LSB64 (m (xor_bytes a.old (string 8 number) ++ r.old)) }
{
    count_into(a, number);
    map_halves(t, s, u, ks, a, r);
}

// The steps of wrapping once round, after so many were done.
fn wrap_round(
    t: &[u64; 256],
    s: &[u8; 256],
    u: &[u8; 256],
    ks: &[u64; 80],
    a: &mut [u8],
    r: &mut [u8],
    done: u8,
)
    requires { (length a.old ≡ 8) × (length r.old % 8 ≡ 0) × (done + length r.old / 8 < 256) }
    ensures { let m : List ℕ → List ℕ = lent 1 t.now s.now u.now ks.now in a.new ++ r.new ≡ wrap_more m done (length r.old / 8) (a.old ++ r.old) }
{
    let mut number = done;
    let mut at = 0usize;
    while at < r.len() {
        let end = at + 8;
        number += 1;
        wrap_step(t, s, u, ks, a, &mut r[at..end], number);
        at = end;
    }
}

// The steps of unwrapping once round, so many being left.
fn unwrap_round(
    t: &[u64; 256],
    s: &[u8; 256],
    u: &[u8; 256],
    ks: &[u64; 80],
    a: &mut [u8],
    r: &mut [u8],
    left: u8,
)
    requires { (length a.old ≡ 8) × (length r.old % 8 ≡ 0) × (length r.old / 8 ≤ left) }
    ensures { let m : List ℕ → List ℕ = lent 1 t.now s.now u.now ks.now in unwrap_steps m (left - length r.old / 8) (a.new ++ r.new) ≡ unwrap_steps m left (a.old ++ r.old) }
{
    let mut number = left;
    let mut end = r.len();
    while 0 < end {
        let at = end - 8;
        unwrap_step(t, s, u, ks, a, &mut r[at..end], number);
        number -= 1;
        end = at;
    }
}

// Six rounds: W on A and the rest of a string.
fn wrap_rounds(
    t: &[u64; 256],
    s: &[u8; 256],
    u: &[u8; 256],
    ks: &[u64; 80],
    a: &mut [u8],
    r: &mut [u8],
)
    requires { (length a.old ≡ 8) × (length r.old % 8 ≡ 0) × (length r.old ≤ 128) }
    ensures { let m : List ℕ → List ℕ = lent 1 t.now s.now u.now ks.now in a.new ++ r.new ≡ W m (a.old ++ r.old) }
{
    let count = (r.len() / 8) as u8;
    let mut done = 0u8;
    let mut round = 0usize;
    while round < 6 {
        wrap_round(t, s, u, ks, a, r, done);
        done += count;
        round += 1;
    }
}

// The same rounds undone, from the last to the first: the inverse of W.
fn unwrap_rounds(
    t: &[u64; 256],
    s: &[u8; 256],
    u: &[u8; 256],
    ks: &[u64; 80],
    a: &mut [u8],
    r: &mut [u8],
)
    requires { (length a.old ≡ 8) × (length r.old % 8 ≡ 0) × (length r.old ≤ 128) }
    ensures { let m : List ℕ → List ℕ = lent 1 t.now s.now u.now ks.now in a.new ++ r.new ≡ W⁻¹ m (a.old ++ r.old) }
{
    let count = (r.len() / 8) as u8;
    let mut left = 6 * count;
    let mut round = 6usize;
    while 0 < round {
        unwrap_round(t, s, u, ks, a, r, left);
        left -= count;
        round -= 1;
    }
}

// The number of the steps, by the lengths of A and of what is behind it.
fn steps_refusal(first: usize, rest: usize) -> u8
    ensures { result ≡ steps_refusal first rest }
{
    if first != 8 {
        return 4;
    }
    if rest % 8 != 0 {
        return 4;
    }
    if 128 < rest {
        return 4;
    }
    0
}

// W on A and what is behind it.
pub fn w(
    t: &[u64; 256],
    s: &[u8; 256],
    u: &[u8; 256],
    ks: &[u64; 80],
    a: &mut [u8],
    r: &mut [u8],
) -> u8
    ensures number { result ≡ steps_refusal (length a.old) (length r.old) }
    ensures made { a.new ++ r.new ≡ outcome result (W (lent 1 t.now s.now u.now ks.now) (a.old ++ r.old)) (a.old ++ r.old) }
{
    let number = steps_refusal(a.len(), r.len());
    if number != 0 {
        return number;
    }
    wrap_rounds(t, s, u, ks, a, r);
    0
}

// The inverse of W on A and what is behind it.
pub fn w_inverse(
    t: &[u64; 256],
    s: &[u8; 256],
    u: &[u8; 256],
    ks: &[u64; 80],
    a: &mut [u8],
    r: &mut [u8],
) -> u8
    ensures number { result ≡ steps_refusal (length a.old) (length r.old) }
    ensures made { a.new ++ r.new ≡ outcome result (W⁻¹ (lent 1 t.now s.now u.now ks.now) (a.old ++ r.old)) (a.old ++ r.old) }
{
    let number = steps_refusal(a.len(), r.len());
    if number != 0 {
        return number;
    }
    unwrap_rounds(t, s, u, ks, a, r);
    0
}
