// A register of page keys, and which key replaced which (document 02, Job 10): adding a key, and looking one up. The records and definitions are
// those of the crate registers.
#![tactic(auto)]

ghost use Rattle.std.specs.Prelude.{◌≡◌, ◌<◌, min, length, drop};
ghost use Rattle.forms.specs.Lists.{when, any, first_from};
ghost use Rattle.registers.specs.Registers as spec;
ghost use Rattle.registers.specs.Registers.{held, has_number, replaces_number, add_refusal, current, followed};

use registers::{Added, Entry, Found, Register};

// An entry of zeros.
fn blank() -> Entry
    ensures { result ≡ spec.blank }
{
    Entry {
        number: 0,
        replaces: 0,
        key: [0; 40],
    }
}

// The empty register.
pub fn empty() -> Register
    ensures { result ≡ spec.empty }
{
    let none = blank();
    Register {
        count: 0,
        entries: [none; 64],
    }
}

// How many entries are held.
fn size(count: usize) -> usize
    ensures { result ≡ min count 64 }
{
    if 64 < count {
        return 64;
    }
    count
}

// A number matches itself, but 0 matches none.
fn matches(number: u16, other: u16) -> bool
    ensures { result ≡ spec.matches number other }
{
    if number == 0 {
        return false;
    }
    number == other
}

// Whether an entry replaces a number, or has it.
fn passes(e: Entry, number: u16, replaced: bool) -> bool
    ensures { result ≡ when replaced (replaces_number number) (has_number number) e }
{
    if replaced {
        return matches(number, e.replaces);
    }
    matches(number, e.number)
}

// The place of the first entry, from a place on, that replaces a number, or has it; the count of entries if there is none.
fn first_from(r: Register, number: u16, replaced: bool, from: usize) -> usize
    ensures { result ≡ first_from (when replaced (replaces_number number) (has_number number)) from (drop from (held r)) }
{
    let n = size(r.count);
    let mut i = from;
    while i < n {
        let e = r.entries[i];
        if passes(e, number, replaced) {
            return i;
        }
        i += 1;
    }
    i
}

// Whether some entry replaces a number, or has it.
fn some(r: Register, number: u16, replaced: bool) -> bool
    ensures { result ≡ any (when replaced (replaces_number number) (has_number number)) (held r) }
{
    first_from(r, number, replaced, 0) < size(r.count)
}

// Whether a number can be an added entry's: it isn't 0, and it is absent.
fn is_new(r: Register, number: u16) -> bool
    ensures { result ≡ spec.new number (held r) }
{
    if number == 0 {
        return false;
    }
    !some(r, number, false)
}

// Whether a number can be replaced: it is 0, for none, or it is present and no entry replaces it.
fn is_replaceable(r: Register, number: u16) -> bool
    ensures { result ≡ spec.replaceable number (held r) }
{
    if number == 0 {
        return true;
    }
    if !some(r, number, false) {
        return false;
    }
    !some(r, number, true)
}

// What adding refuses, in this order.
fn add_refusal(r: Register, number: u16, replaces: u16) -> u8
    ensures { result ≡ add_refusal (held r) number replaces }
{
    if !is_new(r, number) {
        return 21;
    }
    if !is_replaceable(r, replaces) {
        return 22;
    }
    let full = 64 <= r.count;
    if full {
        return 23;
    }
    0
}

// Adds an entry: 21 for a number that is 0 or present, 22 for a replaced number that is absent or already replaced, 23 for a sixty-fifth entry.
pub fn add(r: Register, number: u16, replaces: u16, key: [u8; 40]) -> Added
    ensures { result ≡ spec.add r number replaces key }
{
    let refusal = add_refusal(r, number, replaces);
    if refusal != 0 {
        return Added {
            number: refusal,
            register: r,
        };
    }
    let n = r.count;
    let mut longer = r;
    longer.entries[n] = Entry {
        number: number,
        replaces: replaces,
        key: key,
    };
    longer.count = n + 1;
    Added {
        number: 0,
        register: longer,
    }
}

// Where a chain ends, and how many replacements were followed to there.
#[derive(Clone, Copy)]
struct End {
    place: usize,
    followed: usize,
}

// Follows the replacements of the entry at a place. Later entries are passed by until one replaces the entry reached; then that one is reached.
fn follow(r: Register, start: usize) -> End
    requires { start < length (held r) }
    ensures place { result.place ≡ current (held r) start }
    ensures followed { result.followed ≡ followed (held r) start }
{
    let n = size(r.count);
    let first = r.entries[start];
    let mut reached = first.number;
    let mut at = start;
    let mut steps = 0usize;
    let later = start + 1;
    let mut i = later;
    while i < n {
        let e = r.entries[i];
        if passes(e, reached, true) {
            reached = e.number;
            at = i;
            steps += 1;
        }
        i += 1;
    }
    End {
        place: at,
        followed: steps,
    }
}

// The rule that decided: 0, still current, or 1, replaced.
fn rule(followed: usize) -> u8
    ensures { result ≡ spec.rule followed }
{
    if followed == 0 {
        return 0;
    }
    1
}

// Looks a number up: the entry at the end of its replacements; 22 if the number is absent.
pub fn look_up(r: Register, number: u16) -> Found
    ensures { result ≡ spec.look_up r number }
{
    let start = first_from(r, number, false, 0);
    if size(r.count) <= start {
        let none = blank();
        return Found {
            number: 22,
            entry: none,
            rule: 0,
            followed: 0,
        };
    }
    let end = follow(r, start);
    let at = end.place;
    let entry = r.entries[at];
    Found {
        number: 0,
        entry: entry,
        rule: rule(end.followed),
        followed: end.followed,
    }
}
