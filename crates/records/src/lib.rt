// Records as bytes in a lent buffer, as C hands them over: a working key, 272 bytes, and a store, 1072. What stands where (specs/), and that nothing is
// lost on the way (proofs/); crates/key_records and crates/store_records read and write them.
#![tactic(auto)]

ghost use Rattle.std.specs.Prelude.{◌≡◌, ◌&&◌, eqb};

// Whether a store and a working key have their records' lengths.
pub fn fit(store: usize, working: usize) -> bool
    ensures { result ≡ (eqb store 1072 && eqb working 272) }
{
    let other = store != 1072;
    if other {
        return false;
    }
    working == 272
}
