// The store as C sees it: a fresh one, a set loaded, a set taken, and a key expanded for a set. Records are bytes in buffers that the caller
// lends (crates/records). include/labyrinth.h declares these functions.
#![tactic(auto)]

ghost use Rattle.std.specs.Prelude.{◌≡◌, length};
ghost use Rattle.forms.specs.Refusals.{outcome};
ghost use Rattle.labyrinth.specs.Refusals.{expand_refusal, under_length, expansion};
ghost use Rattle.sets.specs.Sets.{loaded, parts_in, fresh_store, load_refusal, take_refusal};
ghost use Rattle.sets.specs.Sets as spec;
ghost use Rattle.records.specs.Records.{key_bytes, store_in, store_bytes};
ghost use Rattle.records.specs.Numbers.{store_number, records_number, row_number};

// Writes a fresh store.
#[unsafe(no_mangle)]
pub extern "C" fn labyrinth_store_fresh(store: &mut [u8]) -> u8
    ensures number { result ≡ store_number (length store.old) 0 }
    ensures store { store.new ≡ outcome result (store_bytes fresh_store) store.old }
{
    let size = store.len();
    let other = size != 1072;
    if other {
        return 4;
    }
    written_stores::put_store(stores::fresh(), store);
    0
}

// A publisher loads a set.
#[unsafe(no_mangle)]
pub extern "C" fn labyrinth_store_load(
    store: &mut [u8],
    publisher: usize,
    set: usize,
    substitution: &[u8],
    row: &[u8],
) -> u8
    ensures number { result ≡ row_number (length store.old) (length row.now) (load_refusal (store_in store.old) publisher set substitution.now row.now) }
    ensures store { store.new ≡ outcome result (store_bytes (spec.load (store_in store.old) publisher set substitution.now row.now).store) store.old }
{
    if store.len() != 1072 {
        return 4;
    }
    let other = row.len() != 8;
    if other {
        return 4;
    }
    let changed = stores::load(
        store_records::store_of(store),
        publisher,
        set,
        substitution,
        store_records::row_at(row, 0),
    );
    if changed.number != 0 {
        return changed.number;
    }
    let after = changed.store;
    written_stores::put_store(after, store);
    0
}

// A publisher takes a set, and so drops the one that it had taken.
#[unsafe(no_mangle)]
pub extern "C" fn labyrinth_store_take(store: &mut [u8], publisher: usize, set: usize) -> u8
    ensures number { result ≡ store_number (length store.old) (take_refusal (store_in store.old) publisher set) }
    ensures store { store.new ≡ outcome result (store_bytes (spec.take (store_in store.old) publisher set).store) store.old }
{
    if store.len() != 1072 {
        return 4;
    }
    let taken = stores::take(store_records::store_of(store), publisher, set);
    let refused = taken.number != 0;
    if refused {
        return taken.number;
    }
    let after = taken.store;
    written_stores::put_store(after, store);
    0
}

// Expands a key for a set, which the working key then names.
#[unsafe(no_mangle)]
pub extern "C" fn labyrinth_expand(
    store: &[u8],
    n: usize,
    l: usize,
    set: usize,
    key: &[u8],
    working: &mut [u8],
) -> u8
    ensures number { result ≡ records_number (length store.now) (length working.old) (under_length n l (loaded (store_in store.now) set) (expand_refusal n l (length key.now))) }
    ensures key { working.new ≡ outcome result (key_bytes (expansion (parts_in (store_in store.now) set).SM set n l key.now 0).key) working.old }
{
    if !records::fit(store.len(), working.len()) {
        return 4;
    }
    let x = expansion::expand(store_records::store_of(store), n, l, set, key);
    if x.number != 0 {
        return x.number;
    }
    let k = x.key;
    key_records::put_key(k, working);
    0
}
