// A store as bytes in a lent buffer, as C hands it over, 1072 of them (crates/records): read whole. A row as bytes too.
#![tactic(auto)]

ghost use Rattle.std.specs.Prelude.{◌≡◌, ◌≤◌};
ghost use Rattle.forms.specs.Lists.{words_from};
ghost use Rattle.records.specs.Records.{set_at, store_in};

use sets::{Set, Store};

// A row that stands at a place; a coefficient that has no room there is 0.
pub fn row_at(b: &[u8], at: usize) -> [u8; 8]
    ensures { result ≡ words_from 8 at b.now }
{
    strings::bytes_at(b, at)
}

// A set that stands at a place.
fn set_at(b: &[u8], at: usize) -> Set
    requires { at ≤ 792 }
    ensures { result ≡ set_at b.now at }
{
    Set {
        substitution: strings::bytes_at(b, at),
        row: row_at(b, at + 256),
    }
}

// The store that bytes are; what has no room in them is 0.
pub fn store_of(b: &[u8]) -> Store
    ensures { result ≡ store_in b.now }
{
    Store {
        sets: [set_at(b, 0), set_at(b, 264), set_at(b, 528), set_at(b, 792)],
        taken: [
            buffers::load_word(b, 1056) as usize,
            buffers::load_word(b, 1064) as usize,
        ],
    }
}
