// Cases as `given` has them:
//   15  'cmac make', the number and the destination
//   16  'cmac verify', the number in a digit, and 1 for yes or 0 for no; then the same for the tag with each of its first 128 bits flipped in
//       turn
ghost use Rattle.std.specs.Prelude.{◌<◌};

use crate::{given, printing, reading};
use labyrinth::WorkingKey;
use std::io;

// What verifying answers, in two digits.
fn verified(k: WorkingKey, message: &[u8], tag: &[u8]) -> u8 {
    let v = cmac::verify(stores::fresh(), k, message, tag);
    let digit = (v.number % 16) * 16;
    if v.yes { digit + 1 } else { digit }
}

// The byte with a bit flipped.
fn flipped(b: u8, bit: usize) -> u8
    requires { bit < 8 }
{
    b ^ (1u8 << bit)
}

// The answer to a tag with bit i of it flipped, if it has that.
fn print_flip(
    rt: &impl Print,
    k: WorkingKey,
    message: &[u8],
    tag: &[u8],
    i: usize,
) -> io::Result<()> {
    let at = i / 8;
    let mut space = given::space();
    let other = reading::front(&mut space, tag.len());
    strings::copy_into(other, tag);
    if at < other.len() {
        other[at] = flipped(other[at], i % 8);
        let digits = verified(k, message, other);
        print!(rt; "{digits:02x}")?;
    }
    Ok(())
}

fn print_flips(rt: &impl Print, k: WorkingKey, message: &[u8], tag: &[u8]) -> io::Result<()> {
    for i in 0..128 {
        print_flip(rt, k, message, tag, i)?;
    }
    Ok(())
}

fn print_made(rt: &impl Print, k: WorkingKey, message: &[u8], dst: &mut [u8]) -> io::Result<()> {
    let number = cmac::make(stores::fresh(), k, message, dst);
    printing::answer(rt, "cmac make", number, dst)
}

fn print_verified(rt: &impl Print, k: WorkingKey, message: &[u8], tag: &[u8]) -> io::Result<()> {
    let digits = verified(k, message, tag);
    print!(rt; "cmac verify {digits:02x} ")?;
    print_flips(rt, k, message, tag)
}

pub fn print_case(rt: &impl Print, kind: u8, case: &[u8]) -> io::Result<()> {
    let k = given::working_key(case);
    let message = given::source(case);
    if kind == 15 {
        let mut space = given::space();
        print_made(
            rt,
            k,
            message,
            reading::front(&mut space, given::room(case)),
        )
    } else {
        print_verified(rt, k, message, given::start(case))
    }
}
