// Cases of kind 17: 0 for a tape made by hand, else the tape that the step before left; n of its key; its marks, 1 for 'set' and 2 for
// 'ended'; the length of the answer buffer, which holds bytes AA; and the rest. A key made by hand names set 9. The line is 'step', the number,
// the bytes taken, the bytes written, n, the set and the two marks of the next tape, and the answer buffer.
ghost use Rattle.std.specs.Prelude.{◌≡◌, length};

use crate::{printing, reading};
use labyrinth::WorkingKey;
use std::io;
use tape_rules::Tape;

fn print_mark(rt: &impl Print, mark: bool) -> io::Result<()> {
    if mark {
        print!(rt; " 1")
    } else {
        print!(rt; " 0")
    }
}

fn by_hand(n: u8, marks: u8) -> Tape {
    let k = WorkingKey {
        n: n as usize,
        set: 9,
        words: [0x0123456789ABCDEF; 32],
    };
    Tape {
        key: k,
        keyed: marks % 2 == 1,
        ended: marks / 2 == 1,
    }
}

// The tape that a case begins with.
fn begin(t: Tape, case: &[u8]) -> Tape {
    if reading::byte_at(case, 0) == 0 {
        return by_hand(reading::byte_at(case, 1), reading::byte_at(case, 2));
    }
    t
}

fn print_next(rt: &impl Print, t: Tape) -> io::Result<()> {
    let k = t.key;
    print!(rt; " {} {}", k.n, k.set)?;
    print_mark(rt, t.keyed)?;
    print_mark(rt, t.ended)
}

fn space() -> [u8; 256]
    ensures { 256 ≡ length result }
{
    [0xAA; 256]
}

pub fn print_step(rt: &impl Print, t: Tape, case: &[u8]) -> io::Result<Tape> {
    let mut buffer = space();
    let answer = reading::front(&mut buffer, reading::byte_at(case, 3) as usize);
    let s = tape::step(begin(t, case), reading::part(case, 4, case.len()), answer);
    let next = s.next;
    print!(rt; "step {} {} {}", s.number, s.taken, s.written)?;
    print_next(rt, next)?;
    printing::bytes(rt, answer)?;
    Ok(next)
}
