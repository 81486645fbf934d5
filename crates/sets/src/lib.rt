// Two publishers, one store of sets (document 02, Job 7): each set is a substitution of 256 bytes and a row. Set 0 is in any store the
// published one, whatever stands at its place. Whether another is loaded goes by what it holds, and no table is kept beside it, so a store
// made by hand can't lie.
#![tactic(auto)]

// A substitution and a row.
#[derive(Clone, Copy)]
pub struct Set {
    pub substitution: [u8; 256],
    pub row: [u8; 8],
}

// Sets 0 to 3, and for each of two publishers the number of the set that it has taken: 4 or more for none. One made by hand is taken too.
#[derive(Clone, Copy)]
pub struct Store {
    pub sets: [Set; 4],
    pub taken: [usize; 2],
}

// What a load or a take answers: the number, and the store.
#[derive(Clone, Copy)]
pub struct Changed {
    pub number: u8,
    pub store: Store,
}
