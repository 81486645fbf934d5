// The tape program: works the tape on standard input and writes its answers to standard output, as raw bytes. If the input cannot be read
// it writes nothing there and says so on standard error; if the answers cannot be written it says that.
#![tactic(auto)]

ghost use Rattle.std.specs.Prelude.{◌≡◌, length};

use std::io;

// Room for a tape and one byte more, by which a longer one is noticed; the answers need as much.
fn blank() -> [u8; 65537]
    ensures { 65537 ≡ length result }
{
    [0; 65537]
}

fn main(rt: HostRuntime) -> io::Result<()> {
    let mut tape = blank();
    let Ok(length) = readers::read_full(&mut rt.stdin(), &mut tape) else {
        return eprintln!(rt; "tape_program: the tape cannot be read");
    };
    let mut answers = blank();
    let done = tape_run::run(&tape[..length], &mut answers);
    let written = done.length;
    if rt.stdout().write_all(&answers[..written]).is_err() {
        return eprintln!(rt; "tape_program: the answers cannot be written");
    }
    Ok(())
}
