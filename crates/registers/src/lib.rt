// A register of page keys, and which key replaced which (document 02, Job 10). Entries are never removed. Definitions and laws stand in specs/ and
// proofs/; the code is in the crate key_register. A register goes by value, in and out: it is 2.8 KB, adding and looking up are rare, and so a refused
// call hands back what it was given.
#![tactic(auto)]

// A page key: its number, the number that it replaces (0 for none), and 40 bytes of wrapped key.
#[derive(Clone, Copy)]
pub struct Entry {
    pub number: u16,
    pub replaces: u16,
    pub key: [u8; 40],
}

// The first `count` entries are held, in the order of their adding; a count above 64, in a register made by hand, is read as 64.
#[derive(Clone, Copy)]
pub struct Register {
    pub count: usize,
    pub entries: [Entry; 64],
}

// What adding answers: the number, and the register.
#[derive(Clone, Copy)]
pub struct Added {
    pub number: u8,
    pub register: Register,
}

// What a look-up answers: the number, the entry at the end of the replacements, the rule that decided, and how many replacements were followed.
#[derive(Clone, Copy)]
pub struct Found {
    pub number: u8,
    pub entry: Entry,
    pub rule: u8,
    pub followed: usize,
}
