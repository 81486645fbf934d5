// The command tape's rules: its state, what a step returns, and the definition of a step (specs/Steps.antt), which follows document 01 rule by
// rule, with its laws (proofs/).
#![tactic(auto)]

ghost use Rattle.std.specs.Prelude.{◌≡◌};
ghost use Rattle.tape_rules.specs.Steps as spec;

use labyrinth::WorkingKey;

// The state of a tape: the working key, whether one was set, and whether the tape has ended. One made by hand is taken too.
#[derive(Clone, Copy)]
pub struct Tape {
    pub key: WorkingKey,
    pub keyed: bool,
    pub ended: bool,
}

// What a step returns: document 01's number, the bytes taken of the rest, the bytes written of the answer, and the next state.
#[derive(Clone, Copy)]
pub struct Stepped {
    pub number: u8,
    pub taken: usize,
    pub written: usize,
    pub next: Tape,
}

// The state before the first step.
pub fn fresh() -> Tape
    ensures { result ≡ spec.fresh }
{
    Tape {
        key: WorkingKey {
            n: 0,
            set: 0,
            words: [0; 32],
        },
        keyed: false,
        ended: false,
    }
}
