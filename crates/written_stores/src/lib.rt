// A store written to lent bytes. The layout is that of the crate records.
#![tactic(auto)]

ghost use Rattle.std.specs.Prelude.{◌≡◌, ◌++◌, ◌+◌, ◌≤◌, eqb, length, take, drop};
ghost use Rattle.forms.specs.Lists.{when};
ghost use Rattle.records.specs.Records.{store_bytes};

use sets::Store;

// Puts s at a place.
fn put_part(d: &mut [u8], at: usize, s: &[u8])
    requires { at + length s.now ≤ length d.old }
    ensures { d.new ≡ take at d.old ++ (s.now ++ drop (at + length s.now) d.old) }
{
    strings::copy_into(&mut d[at..], s);
}

// Puts a set's 264 bytes at a place.
fn put_set(d: &mut [u8], at: usize, s: [u8; 256], g: [u8; 8])
    requires { at + 264 ≤ length d.old }
    ensures long { length (s ++ g) ≡ 264 }
    ensures set { d.new ≡ take at d.old ++ ((s ++ g) ++ drop (at + 264) d.old) }
{
    put_part(d, at, &s);
    put_part(d, at + 256, &g);
}

// Writes a store to a buffer of its length; another is left as it was.
pub fn put_store(st: Store, d: &mut [u8])
    ensures { d.new ≡ when (eqb (length d.old) 1072) (store_bytes st) d.old }
{
    if d.len() != 1072 {
        return;
    }
    let mut i = 0usize;
    while i < 4 {
        let v = st.sets[i];
        let s = v.substitution;
        let g = v.row;
        put_set(d, 264 * i, s, g);
        i += 1;
    }
    buffers::store_word(d, 1056, st.taken[0] as u64);
    buffers::store_word(d, 1064, st.taken[1] as u64);
}
