// Counter mode over what is lent: a run sealed or opened, which is the same. crates/ctr has the operations.
//
// What the block map needs is prepared once for a run, and lent to every block. Each inner function is stated over the block map m that
// it gives.
#![tactic(auto)]

ghost use Rattle.std.specs.Prelude.{◌≡◌, ℕ, ◌+◌, ◌-◌, ◌*◌, ◌/◌, ◌%◌, ◌<◌, ◌≤◌, List, length, set};
ghost use Rattle.forms.specs.Refusals.{outcome};
ghost use Rattle.forms.specs.Strings.{xor_bytes, number, string};
ghost use Rattle.labyrinth.specs.Working.{Size};
ghost use Rattle.labyrinth.specs.Lent.{lent};
ghost use Rattle.modes.specs.Ctr.{counter, ctr};
ghost use Rattle.modes.specs.Refusals.{ctr_refusal};
ghost use Rattle.ctr_lent.specs.Counting.{counter_blocks};

// The counter block that c is with k for its last byte, plus 1: its last byte is returned, and c holds the others. c is written only where the last byte wraps.
fn next_last(c: &mut [u8], k: u8) -> u8
    requires { 0 < length c.old }
    ensures { set c.new (length c.old - 1) result ≡ string (length c.old) (number (set c.old (length c.old - 1) k) + 1) }
{
    if k == 255 {
        let last = c.len() - 1;
        c[last] = 255;
        numbers::add_into(c, 1);
        return 0;
    }
    k + 1
}

// Fills d, whole blocks, with counter blocks from the one on that c holds. Then c holds the one after them. The last byte is kept apart:
// a copy of c that followed a store of one byte to it would wait for that store.
fn count_up(c: &mut [u8], d: &mut [u8])
    requires { (0 < length c.old) × (length d.old % length c.old ≡ 0) }
    ensures blocks { d.new ≡ counter_blocks (length c.old) c.old 0 (length d.old / length c.old) }
    ensures next { c.new ≡ counter (length c.old) c.old (length d.old / length c.old) }
{
    let size = c.len();
    let last = size - 1;
    let mut k = c[last];
    let mut at = 0usize;
    while at < d.len() {
        let end = at + size;
        strings::copy_into(&mut d[at..end], c);
        d[end - 1] = k;
        k = next_last(c, k);
        at = end;
    }
    c[last] = k;
}

// One block, the last one perhaps short: src XOR the enciphered counter block.
fn ctr_block(
    t: &[u64; 256],
    s: &[u8; 256],
    u: &[u8; 256],
    n: usize,
    ks: &[u64; 80],
    counter: &[u8],
    src: &[u8],
    dst: &mut [u8],
)
    requires { Size n × (length counter.now ≡ 16 * n) × (length src.now ≤ 16 * n) × (length dst.old ≡ length src.now) }
    ensures { let m : List ℕ → List ℕ = lent n t.now s.now u.now ks.now in dst.new ≡ xor_bytes src.now (m counter.now) }
{
    let size = counter.len();
    let mut stream = strings::zero_block();
    table_cipher::map_block(t, s, u, n, ks, counter, &mut stream[..size]);
    strings::xor_to(dst, src, &stream[..size]);
}

// A run from the counter block on that counter holds: the whole blocks are mapped together, and a last short one behind them.
fn ctr_blocks(
    t: &[u64; 256],
    s: &[u8; 256],
    u: &[u8; 256],
    n: usize,
    ks: &[u64; 80],
    counter: &mut [u8],
    src: &[u8],
    dst: &mut [u8],
)
    requires { Size n × (length counter.old ≡ 16 * n) × (length dst.old ≡ length src.now) }
    ensures { let m : List ℕ → List ℕ = lent n t.now s.now u.now ks.now in dst.new ≡ ctr m (16 * n) counter.old 0 src.now }
{
    let size = counter.len();
    let whole = src.len() / size * size;
    count_up(counter, &mut dst[..whole]);
    many_blocks::map_in_place(t, s, u, n, ks, &src[..whole], &mut dst[..whole]);
    if whole < src.len() {
        ctr_block(t, s, u, n, ks, counter, &src[whole..], &mut dst[whole..]);
    }
}

// The same, but at most one block goes by itself, with no counting.
fn from_counter(
    t: &[u64; 256],
    s: &[u8; 256],
    u: &[u8; 256],
    n: usize,
    ks: &[u64; 80],
    counter: &mut [u8],
    src: &[u8],
    dst: &mut [u8],
)
    requires { Size n × (length counter.old ≡ 16 * n) × (length dst.old ≡ length src.now) }
    ensures { let m : List ℕ → List ℕ = lent n t.now s.now u.now ks.now in dst.new ≡ ctr m (16 * n) counter.old 0 src.now }
{
    if src.len() <= counter.len() {
        ctr_block(t, s, u, n, ks, counter, src, dst);
    } else {
        ctr_blocks(t, s, u, n, ks, counter, src, dst);
    }
}

// A run with the tables lent: the first counter block is start plus q.
fn ctr_run(
    t: &[u64; 256],
    s: &[u8; 256],
    u: &[u8; 256],
    n: usize,
    ks: &[u64; 80],
    start: &[u8],
    q: u64,
    src: &[u8],
    dst: &mut [u8],
)
    requires { Size n × (length start.now ≡ 16 * n) × (length dst.old ≡ length src.now) }
    ensures { let m : List ℕ → List ℕ = lent n t.now s.now u.now ks.now in dst.new ≡ ctr m (16 * n) start.now q src.now }
{
    let size = start.len();
    let mut counter = strings::block_copy(start);
    numbers::add_into(&mut counter[..size], q);
    from_counter(t, s, u, n, ks, &mut counter[..size], src, dst);
}

// Seals or opens src to dst, from block q of the run that start begins, with the tables lent.
pub fn run_lent(
    t: &[u64; 256],
    s: &[u8; 256],
    u: &[u8; 256],
    n: usize,
    ks: &[u64; 80],
    start: &[u8],
    q: u64,
    src: &[u8],
    dst: &mut [u8],
) -> u8
    ensures number { result ≡ ctr_refusal n (length start.now) (length src.now) (length dst.old) }
    ensures run { dst.new ≡ outcome result (ctr (lent n t.now s.now u.now ks.now) (16 * n) start.now q src.now) dst.old }
{
    let number = run_refusals::ctr_refusal(n, start.len(), src.len(), dst.len());
    if number != 0 {
        return number;
    }
    ctr_run(t, s, u, n, ks, start, q, src, dst);
    0
}
