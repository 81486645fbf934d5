// The functions on stores of sets: a fresh one, what a set holds and whether it is loaded, loading and taking. What they give is defined in `sets`.
#![tactic(auto)]

ghost use Rattle.std.specs.Prelude.{◌≡◌, length};
ghost use Rattle.sets.specs.Sets as spec;
ghost use Rattle.sets.specs.Sets.{set_refusal, fresh_store, loaded, held, set_in};

use sets::{Changed, Set, Store};

// ---- stores

// The published set.
fn published() -> Set
    ensures { result ≡ spec.published }
{
    let s = published::sbox();
    let g = published::row();
    Set {
        substitution: s,
        row: g,
    }
}

// A set that isn't loaded: zeros.
fn blank() -> Set
    ensures { result ≡ spec.blank }
{
    Set {
        substitution: [0u8; 256],
        row: [0u8; 8],
    }
}

// A store with only set 0 loaded and none taken.
pub fn fresh() -> Store
    ensures { result ≡ fresh_store }
{
    let p = published();
    let b = blank();
    Store {
        sets: [p, b, b, b],
        taken: [4usize; 2],
    }
}

// Set i of a store.
pub fn set_in(store: Store, i: usize) -> Set
    ensures { result ≡ set_in store i }
{
    if i == 0 {
        return published();
    }
    if 3 < i {
        return blank();
    }
    store.sets[i]
}

// ---- what is refused

// The number for a substitution and a row: 14, then 13.
fn set_refusal(s: &[u8], g: [u8; 8]) -> u8
    ensures { result ≡ set_refusal s.now g }
{
    if !substitutions::is_different(s) {
        return 14;
    }
    rows::row_refusal(g)
}

// The number for what stands in a store.
fn kept_refusal(s: [u8; 256], g: [u8; 8]) -> u8
    ensures { result ≡ set_refusal s g }
{
    set_refusal(&s, g)
}

// Whether set i is loaded: set 0 always, another by what it holds.
pub fn is_loaded(store: Store, i: usize) -> bool
    ensures { result ≡ loaded store i }
{
    if i == 0 {
        return true;
    }
    if 3 < i {
        return false;
    }
    let v = store.sets[i];
    let s = v.substitution;
    let g = v.row;
    kept_refusal(s, g) == 0
}

// Whether someone holds set i: set 0 is held for good.
fn is_held(store: Store, i: usize) -> bool
    ensures { result ≡ held store i }
{
    if i == 0 {
        return true;
    }
    let a = store.taken[0];
    let b = store.taken[1];
    if a == i {
        return true;
    }
    b == i
}

// ---- the two operations that change a store

// The 256 bytes of a slice.
fn copied(s: &[u8]) -> [u8; 256]
    requires { length s.now ≡ 256 }
    ensures { result ≡ s.now }
{
    let mut r = [0u8; 256];
    strings::copy_into(&mut r, s);
    r
}

// A publisher loads set i: 15 if there is no such publisher or set, 14 if the substitution isn't 256 different bytes, 13 if the row's
// coefficients XOR to zero, 16 if someone holds the set.
pub fn load(store: Store, publisher: usize, i: usize, substitution: &[u8], row: [u8; 8]) -> Changed
    ensures { result ≡ spec.load store publisher i substitution.now row }
{
    if 1 < publisher {
        return Changed {
            number: 15,
            store: store,
        };
    }
    if 3 < i {
        return Changed {
            number: 15,
            store: store,
        };
    }
    let number = set_refusal(substitution, row);
    if number != 0 {
        return Changed {
            number: number,
            store: store,
        };
    }
    if is_held(store, i) {
        return Changed {
            number: 16,
            store: store,
        };
    }
    let s = copied(substitution);
    let mut filled = store;
    filled.sets[i] = Set {
        substitution: s,
        row: row,
    };
    Changed {
        number: 0,
        store: filled,
    }
}

// A publisher takes set i, and so drops the one that it had taken: 15 if there is no such publisher or set, or the set isn't loaded.
pub fn take(store: Store, publisher: usize, i: usize) -> Changed
    ensures { result ≡ spec.take store publisher i }
{
    if 1 < publisher {
        return Changed {
            number: 15,
            store: store,
        };
    }
    if !is_loaded(store, i) {
        return Changed {
            number: 15,
            store: store,
        };
    }
    let mut moved = store;
    moved.taken[publisher] = i;
    Changed {
        number: 0,
        store: moved,
    }
}
