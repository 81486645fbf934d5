// A whole command tape: steps from a fresh state until the tape is ended, their answers one after another.
#![tactic(auto)]

ghost use Rattle.std.specs.Prelude.{◌≡◌, ◌<◌, length};
ghost use Rattle.forms.specs.Lists.{over};
ghost use Rattle.tape_rules.specs.Steps as spec;
ghost use Rattle.tape_run.specs.Runs.{tape_answers, returned};
ghost use Rattle.tape_run.specs.Runs.{run as wholeRun};

use tape_rules::{Stepped, Tape};

// What a run returns: a number, and the bytes written of the answers.
#[derive(Clone, Copy)]
pub struct Answered {
    pub number: u8,
    pub length: usize,
}

// Room for an answer.
fn blank_answer() -> [u8; 65]
    ensures { 65 ≡ length result }
{
    [0; 65]
}

// One step, its answer to the front of what is left of the answers.
fn turn(t: Tape, rest: &[u8], answers: &mut [u8]) -> Stepped
    requires { length rest.now < length answers.old }
    ensures returned { result ≡ spec.returned (spec.step t rest.now 65) }
    ensures bytes { answers.new ≡ over (spec.step t rest.now 65).written answers.old }
{
    let mut answer = blank_answer();
    let s = tape::step(t, rest, &mut answer);
    let written = s.written;
    strings::copy_into(answers, &answer[..written]);
    s
}

// Steps through a tape, its answers to the front of a longer buffer. Returns how many bytes they are.
fn work(tape: &[u8], answers: &mut [u8]) -> usize
    requires { length tape.now < length answers.old }
    ensures length { result ≡ length (tape_answers tape.now) }
    ensures bytes { answers.new ≡ over (tape_answers tape.now) answers.old }
{
    let mut t = tape_rules::fresh();
    let mut at = 0usize;
    let mut put = 0usize;
    let mut going = true;
    while going {
        let s = turn(t, &tape[at..], &mut answers[put..]);
        at = at + s.taken;
        put = put + s.written;
        t = s.next;
        going = !t.ended;
    }
    put
}

// Runs a whole tape: 5 if the answers aren't 65,537 bytes, 4 if the tape is longer than 65,536.
pub fn run(tape: &[u8], answers: &mut [u8]) -> Answered
    ensures returned { result ≡ returned (wholeRun tape.now (length answers.old)) }
    ensures bytes { answers.new ≡ over (wholeRun tape.now (length answers.old)).written answers.old }
{
    if answers.len() != 65537 {
        return Answered {
            number: 5,
            length: 0,
        };
    }
    let long = 65536 < tape.len();
    if long {
        answers[0] = 4;
        return Answered {
            number: 4,
            length: 1,
        };
    }
    let length = work(tape, answers);
    Answered {
        number: 0,
        length: length,
    }
}
