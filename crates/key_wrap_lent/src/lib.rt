// Key wrapping KW (NIST SP 800-38F) at n = 1, over what is lent: a key wrapped, and unwrapped.
//
// Each inner function is stated over the block map m that what is lent gives.
#![tactic(auto)]

ghost use Rattle.std.specs.Prelude.{◌≡◌, List, ℕ, ◌+◌, ◌%◌, ◌≤◌, length};
ghost use Rattle.forms.specs.Refusals.{unless, outcome};
ghost use Rattle.labyrinth.specs.Lent.{lent};
ghost use Rattle.modes.specs.KeyWrap.{ICV1, wrapped, authentic, unwrapped};
ghost use Rattle.modes.specs.Refusals.{wrap_refusal, unwrap_refusal};

// Room for the semiblocks of a key.
fn room() -> [u8; 128]
    ensures long { 128 ≡ length result }
{
    [0; 128]
}

// The check value of KW.
fn check_value() -> [u8; 8]
    ensures { result ≡ ICV1 }
{
    [0xA6; 8]
}

// Wraps a key: it is laid behind the place of A, and the steps work there.
fn wrap_into(
    t: &[u64; 256],
    s: &[u8; 256],
    u: &[u8; 256],
    ks: &[u64; 80],
    src: &[u8],
    dst: &mut [u8],
)
    requires { (length src.now % 8 ≡ 0) × (length src.now ≤ 128) × (length dst.old ≡ length src.now + 8) }
    ensures { let m : List ℕ → List ℕ = lent 1 t.now s.now u.now ks.now in dst.new ≡ wrapped m src.now }
{
    let mut a = check_value();
    strings::copy_into(&mut dst[8..], src);
    key_wrap_steps::w(t, s, u, ks, &mut a, &mut dst[8..]);
    strings::copy_into(dst, &a);
}

// Unwraps a key. The destination is written only after the check value is found right.
fn unwrap_into(
    t: &[u64; 256],
    s: &[u8; 256],
    u: &[u8; 256],
    ks: &[u64; 80],
    src: &[u8],
    dst: &mut [u8],
) -> u8
    requires { (length src.now % 8 ≡ 0) × (length src.now ≤ 136) × (length src.now ≡ length dst.old + 8) }
    ensures number { let m : List ℕ → List ℕ = lent 1 t.now s.now u.now ks.now in result ≡ unless (authentic m src.now) 18 0 }
    ensures key { let m : List ℕ → List ℕ = lent 1 t.now s.now u.now ks.now in dst.new ≡ outcome result (unwrapped m src.now) dst.old }
{
    let size = dst.len();
    let mut a = [0u8; 8];
    strings::copy_into(&mut a, src);
    let mut r = room();
    strings::copy_into(&mut r, &src[8..]);
    key_wrap_steps::w_inverse(t, s, u, ks, &mut a, &mut r[..size]);
    let icv = check_value();
    if !strings::equal(&a, &icv) {
        return 18;
    }
    strings::copy_into(dst, &r[..size]);
    0
}

// Wraps the key in src to dst with the tables lent.
pub fn wrap_lent(
    t: &[u64; 256],
    s: &[u8; 256],
    u: &[u8; 256],
    n: usize,
    ks: &[u64; 80],
    src: &[u8],
    dst: &mut [u8],
) -> u8
    ensures number { result ≡ wrap_refusal n (length src.now) (length dst.old) }
    ensures key { dst.new ≡ outcome result (wrapped (lent n t.now s.now u.now ks.now) src.now) dst.old }
{
    let number = wrap_refusals::wrap_refusal(n, src.len(), dst.len());
    if number != 0 {
        return number;
    }
    wrap_into(t, s, u, ks, src, dst);
    0
}

// Unwraps the wrapped key in src to dst with the tables lent, unless its check value is wrong.
pub fn unwrap_lent(
    t: &[u64; 256],
    s: &[u8; 256],
    u: &[u8; 256],
    n: usize,
    ks: &[u64; 80],
    src: &[u8],
    dst: &mut [u8],
) -> u8
    ensures number { result ≡ unwrap_refusal n (length src.now) (length dst.old) (authentic (lent n t.now s.now u.now ks.now) src.now) }
    ensures key { dst.new ≡ outcome result (unwrapped (lent n t.now s.now u.now ks.now) src.now) dst.old }
{
    let number = wrap_refusals::unwrap_refusal(n, src.len(), dst.len());
    if number != 0 {
        return number;
    }
    unwrap_into(t, s, u, ks, src, dst)
}
