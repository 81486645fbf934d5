// A page record as the catalogue reads it, with no key. The definitions are those of crates/pages and specs/Catalogue.antt.
#![tactic(auto)]

ghost use Rattle.std.specs.Prelude.{◌≡◌, ◌+◌, ◌*◌, ◌<◌, ◌≤◌, length, drop};
ghost use Rattle.pages.specs.Pages.{begins, four_byte_number, times15, headed, ended};
ghost use Rattle.catalogue.specs.Catalogue.{entry, title_part};

// What the catalogue reader answers beside the title: document 02's number, and the page's number, day and block count.
#[derive(Clone, Copy)]
pub struct Entry {
    pub number: u8,
    pub page: u32,
    pub day: u32,
    pub blocks: usize,
}

// Whether the bytes from a place on begin with the command c and its operand of w bytes.
fn begins_at(bytes: &[u8], at: usize, c: u8, w: usize) -> bool
    ensures { result ≡ begins c w (drop at bytes.now) }
{
    if bytes.len() <= at {
        return false;
    }
    if bytes.len() - at <= w {
        return false;
    }
    bytes[at] == c
}

// A byte as a number.
fn wide(x: u8) -> u32
    ensures same { result ≡ x }
    ensures small { result < 256 }
{
    x as u32
}

// The number that four bytes are, lowest first.
fn four_byte_number(bytes: &[u8]) -> u32
    requires { length bytes.now ≡ 4 }
    ensures { result ≡ four_byte_number bytes.now }
{
    let a = wide(bytes[0]);
    let b = wide(bytes[1]);
    let c = wide(bytes[2]);
    let d = wide(bytes[3]);
    a + 256 * b + 65536 * c + 16777216 * d
}

// How many commands 15 stand one after another from a place on, at most 4,096.
fn count_blocks(bytes: &[u8], from: usize) -> usize
    requires { from ≤ length bytes.now }
    ensures count { result ≡ times15 4096 (drop from bytes.now) }
    ensures within { from + 17 * result ≤ length bytes.now }
{
    let mut count = 0usize;
    while count < 4096 {
        if !begins_at(bytes, from + 17 * count, 0x15, 16) {
            return count;
        }
        count = count + 1;
    }
    count
}

// Whether the commands before the blocks stand in their order.
fn heads(bytes: &[u8]) -> bool
    ensures { result ≡ headed bytes.now }
{
    if !begins_at(bytes, 0, 0x10, 4) {
        return false;
    }
    if !begins_at(bytes, 5, 0x11, 4) {
        return false;
    }
    if !begins_at(bytes, 10, 0x12, 32) {
        return false;
    }
    begins_at(bytes, 43, 0x13, 16)
}

// Whether a record ends at a place with the command 1F.
fn ends(bytes: &[u8], at: usize) -> bool
    ensures { result ≡ ended (drop at bytes.now) }
{
    if !begins_at(bytes, at, 0x1F, 16) {
        return false;
    }
    bytes.len() - at == 17
}

// What is answered to any other layout.
fn refused() -> Entry
    ensures { result ≡ record { number = 19; page = 0; day = 0; blocks = 0 } }
{
    Entry {
        number: 19,
        page: 0,
        day: 0,
        blocks: 0,
    }
}

// The catalogue reader: a page's number, day and block count; 19 for any other layout.
pub fn catalogue(bytes: &[u8]) -> Entry
    ensures { result ≡ entry bytes.now }
{
    if !heads(bytes) {
        return refused();
    }
    let count = count_blocks(bytes, 60);
    if !ends(bytes, 60 + 17 * count) {
        return refused();
    }
    Entry {
        number: 0,
        page: four_byte_number(&bytes[1..5]),
        day: four_byte_number(&bytes[6..10]),
        blocks: count,
    }
}

// The catalogue reader's title: that part of the record itself; an empty part for any other layout.
pub fn title(bytes: &[u8]) -> &[u8]
    ensures { result.now ≡ title_part bytes.now }
{
    let e = catalogue(bytes);
    if e.number != 0 {
        return &bytes[..0];
    }
    &bytes[11..43]
}
