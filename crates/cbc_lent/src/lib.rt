// Cipher block chaining (NIST SP 800-38A, section 6.2) over what is lent: a run of whole blocks sealed and opened. crates/cbc has the operations.
//
// What the block map needs is prepared once for a run, and lent to every block. Each inner function is stated over the block map m that
// it gives.
#![tactic(auto)]

ghost use Rattle.std.specs.Prelude.{◌≡◌, List, ℕ, ◌*◌, ◌%◌, length};
ghost use Rattle.forms.specs.Refusals.{outcome};
ghost use Rattle.labyrinth.specs.Working.{Size};
ghost use Rattle.labyrinth.specs.Lent.{lent};
ghost use Rattle.modes.specs.Cbc.{cbc_seal, cbc_open};
ghost use Rattle.modes.specs.Refusals.{cbc_refusal};

// Seals src to dst, after the start block, with the tables lent.
pub fn seal_lent(
    t: &[u64; 256],
    s: &[u8; 256],
    u: &[u8; 256],
    n: usize,
    ks: &[u64; 80],
    start: &[u8],
    src: &[u8],
    dst: &mut [u8],
) -> u8
    ensures number { result ≡ cbc_refusal n (length start.now) (length src.now) (length dst.old) }
    ensures run { dst.new ≡ outcome result (cbc_seal (lent n t.now s.now u.now ks.now) (16 * n) start.now src.now) dst.old }
{
    let number = run_refusals::cbc_refusal(n, start.len(), src.len(), dst.len());
    if number != 0 {
        return number;
    }
    let size = start.len();
    let mut chain = strings::block_copy(start);
    chains::chain(t, s, u, n, ks, &mut chain[..size], src, dst);
    0
}

// Opens a run with the tables lent. Every block is mapped, XOR the sealed block before it; before the first stands the start block.
fn open_run(
    t: &[u64; 256],
    s: &[u8; 256],
    u: &[u8; 256],
    n: usize,
    ks: &[u64; 80],
    start: &[u8],
    src: &[u8],
    dst: &mut [u8],
)
    requires { Size n × (length start.now ≡ 16 * n) × (length src.now % (16 * n) ≡ 0) × (length dst.old ≡ length src.now) }
    ensures { let m : List ℕ → List ℕ = lent n t.now s.now u.now ks.now in dst.new ≡ cbc_open m (16 * n) start.now src.now }
{
    let size = start.len();
    if src.len() != 0 {
        let rest = src.len() - size;
        many_blocks::map_to(t, s, u, n, ks, &src[..size], start, &mut dst[..size]);
        many_blocks::map_to(t, s, u, n, ks, &src[size..], &src[..rest], &mut dst[size..]);
    }
}

// Opens src to dst, after the start block, with the tables lent.
pub fn open_lent(
    t: &[u64; 256],
    s: &[u8; 256],
    u: &[u8; 256],
    n: usize,
    ks: &[u64; 80],
    start: &[u8],
    src: &[u8],
    dst: &mut [u8],
) -> u8
    ensures number { result ≡ cbc_refusal n (length start.now) (length src.now) (length dst.old) }
    ensures run { dst.new ≡ outcome result (cbc_open (lent n t.now s.now u.now ks.now) (16 * n) start.now src.now) dst.old }
{
    let number = run_refusals::cbc_refusal(n, start.len(), src.len(), dst.len());
    if number != 0 {
        return number;
    }
    open_run(t, s, u, n, ks, start, src, dst);
    0
}
