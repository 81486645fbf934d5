// Prints what the library answers to the cases on standard input, a line each. A case is its kind, the length of the rest in 2 bytes, lowest
// first, and the rest, of at most 2,048 bytes. The modules say what the kinds are: 0 to 2 `byte`, 3 to 6 `row`, 7 to 11 `blocks`, 12 to 14
// `runs`, 15 and 16 `tags`, 17 `steps`, 18 and 19 `blocks` again.
#![tactic(auto)]

mod blocks;
mod byte;
mod given;
mod printing;
mod reading;
mod row;
mod runs;
mod steps;
mod tags;

use std::io;
use std::io::Read;
use tape_rules::Tape;

// What stands in the line of a case, but of a step.
fn print_case(rt: &impl Print, kind: u8, case: &[u8]) -> io::Result<()> {
    match kind {
        0..=2 => byte::print_case(rt, kind, reading::byte_at(case, 0)),
        3..=6 => row::print_case(rt, kind, case),
        7..=11 => blocks::print_case(rt, kind, case),
        12..=14 => runs::print_case(rt, kind, case),
        15 | 16 => tags::print_case(rt, kind, case),
        _ => blocks::print_case(rt, kind, case),
    }
}

// The line of a case, and the tape that it leaves.
fn print_line(rt: &impl Print, kind: u8, case: &[u8], t: Tape) -> io::Result<Tape> {
    if kind == 17 {
        return steps::print_step(rt, t, case);
    }
    print_case(rt, kind, case)?;
    Ok(t)
}

// The tape that a case leaves, or none where the input has no case more.
fn read_case<R: Read>(rt: &impl Print, input: &mut R, t: Tape) -> io::Result<Option<Tape>> {
    let mut head = [0u8; 3];
    if readers::read_full(input, &mut head)? != 3 {
        return Ok(None);
    }
    let mut space = given::space();
    let case = reading::front(&mut space, reading::pair_at(&head, 1));
    readers::read_full(input, case)?;
    let left = print_line(rt, head[0], case, t)?;
    println!(rt)?;
    Ok(Some(left))
}

// No more than forty thousand cases are taken. A read or a write that fails ends the program with its error.
fn main(rt: HostRuntime) -> io::Result<()> {
    let mut input = rt.stdin();
    let mut t = tape_rules::fresh();
    for _ in 0..40000u32 {
        let Some(left) = read_case(&rt, &mut input, t)? else {
            break;
        };
        t = left;
    }
    Ok(())
}
