// A working key as bytes in a lent buffer, as C hands it over, 272 of them (crates/records): read whole and written whole.
#![tactic(auto)]

ghost use Rattle.std.specs.Prelude.{◌≡◌, ◌++◌, eqb, length, take};
ghost use Rattle.forms.specs.Lists.{when};
ghost use Rattle.forms.specs.Words.{bytes};
ghost use Rattle.records.specs.Records.{key_in, key_bytes};

use labyrinth::WorkingKey;

// The working key that bytes are; a number or a word that has no room in them is 0.
pub fn key_of(b: &[u8]) -> WorkingKey
    ensures { result ≡ key_in b.now }
{
    WorkingKey {
        n: buffers::load_word(b, 0) as usize,
        set: buffers::load_word(b, 8) as usize,
        words: std::array::from_fn(|j| buffers::load_word(b, 16 + 8 * j)),
    }
}

// Puts 32 words behind n and the set.
fn put_words(d: &mut [u8], ws: &[u64; 32])
    requires { length d.old ≡ 272 }
    ensures { d.new ≡ take 16 d.old ++ bytes 32 ws.now }
{
    for (j, w) in ws.iter().enumerate() {
        buffers::store_word(d, 16 + 8 * j, *w);
    }
}

// Writes a working key to a buffer of its length; another is left as it was.
pub fn put_key(k: WorkingKey, d: &mut [u8])
    ensures { d.new ≡ when (eqb (length d.old) 272) (key_bytes k) d.old }
{
    if d.len() != 272 {
        return;
    }
    buffers::store_word(d, 0, k.n as u64);
    buffers::store_word(d, 8, k.set as u64);
    put_words(d, &k.words);
}
