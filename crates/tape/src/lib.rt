// The command tape: one step, by value. The definition is crates/tape_rules/specs/Steps.antt.
#![tactic(auto)]

ghost use Rattle.std.specs.Prelude.{◌≡◌, [], ◌∷◌, ◌*◌, ◌<◌, length, get_or};
ghost use Rattle.forms.specs.Lists.{over};
ghost use Rattle.labyrinth.specs.Cipher.{article};
ghost use Rattle.labyrinth.specs.Working.{Size, way};
ghost use Rattle.tape_rules.specs.Steps.{answers, refuses, at_end, key_refusal, set_key, map_refusal, map_block, mix_word, command, returned};
ghost use Rattle.tape_rules.specs.Steps as spec;

use labyrinth::WorkingKey;
use tape_rules::{Stepped, Tape};

// The same state, ended.
fn ended(t: Tape) -> Tape
    ensures { result ≡ spec.ended t }
{
    let k = t.key;
    Tape {
        key: k,
        keyed: t.keyed,
        ended: true,
    }
}

// An end: nothing is written.
fn ends(t: Tape, taken: usize) -> Stepped
    ensures { result ≡ returned (spec.ends t taken) }
{
    Stepped {
        number: 0,
        taken: taken,
        written: 0,
        next: ended(t),
    }
}

// An answer of its number alone.
fn say_number(next: Tape, number: u8, taken: usize, answer: &mut [u8]) -> Stepped
    requires { 0 < length answer.old }
    ensures returned { result ≡ returned (refuses next number taken) }
    ensures bytes { answer.new ≡ over (number ∷ []) answer.old }
{
    answer[0] = number;
    Stepped {
        number: number,
        taken: taken,
        written: 1,
        next: next,
    }
}

// The end rule: a rest of length 0, and no 00 came.
fn at_end(t: Tape, answer: &mut [u8]) -> Stepped
    requires { 0 < length answer.old }
    ensures returned { result ≡ returned (at_end t) }
    ensures bytes { answer.new ≡ over (at_end t).written answer.old }
{
    say_number(ended(t), 8, 0, answer)
}

// An answer of number 0 and more bytes.
fn say_bytes(next: Tape, taken: usize, more: &[u8], answer: &mut [u8]) -> Stepped
    requires { length more.now < length answer.old }
    ensures returned { result ≡ returned (answers next 0 taken more.now) }
    ensures bytes { answer.new ≡ over (0 ∷ more.now) answer.old }
{
    let end = 1 + more.len();
    answer[0] = 0;
    strings::copy_into(&mut answer[1..end], more);
    Stepped {
        number: 0,
        taken: taken,
        written: end,
        next: next,
    }
}

// ---- 01

fn size(b: u8) -> usize
    ensures same { result ≡ b }
    ensures small { result < 256 }
{
    b as usize
}

// The number of a 01 whose operands are n, l and 128 bytes of key.
fn key_refusal(n: usize, l: usize, key: &[u8]) -> u8
    requires { (n < 256) × (l < 256) × (length key.now ≡ 128) }
    ensures { result ≡ key_refusal n l key.now }
{
    let used = 8 * (n * l);
    let number = cipher_refusals::expand_refusal(n, l, used);
    if number != 0 {
        return number;
    }
    if !operands::zeros(&key[used..]) {
        return 10;
    }
    0
}

// Sets the working key.
fn set_key(t: Tape, rest: &[u8], answer: &mut [u8]) -> Stepped
    requires { length answer.old ≡ 65 }
    ensures returned { result ≡ returned (set_key t rest.now) }
    ensures bytes { answer.new ≡ over (set_key t rest.now).written answer.old }
{
    if rest.len() < 131 {
        return say_number(ended(t), 8, rest.len(), answer);
    }
    let n = size(rest[1]);
    let l = size(rest[2]);
    let number = key_refusal(n, l, &rest[3..131]);
    if number != 0 {
        return say_number(t, number, 131, answer);
    }
    let end = 3 + 8 * (n * l);
    let x = expansion::expand_published(n, l, &rest[3..end]);
    let k = x.key;
    let next = Tape {
        key: k,
        keyed: true,
        ended: t.ended,
    };
    say_number(next, 0, 131, answer)
}

// ---- 03 and 04

// The number of a 03 or 04 whose operand is a block of 64 bytes.
fn map_refusal(t: Tape, block: &[u8]) -> u8
    requires { length block.now ≡ 64 }
    ensures { result ≡ map_refusal t block.now }
{
    if !t.keyed {
        return 9;
    }
    let n = t.key.n;
    if !labyrinth::is_legal(n) {
        return 1;
    }
    let used = 16 * n;
    if !operands::zeros(&block[used..]) {
        return 10;
    }
    0
}

// Enciphers a block, or deciphers it.
fn map_used(k: WorkingKey, back: bool, src: &[u8], dst: &mut [u8])
    requires { Size k.n × (length src.now ≡ 16 * k.n) × (length dst.old ≡ 16 * k.n) }
    ensures { dst.new ≡ way article back k.n k.words src.now }
{
    if back {
        table_cipher::decipher_published(k, src, dst);
    } else {
        table_cipher::encipher_published(k, src, dst);
    }
}

// Enciphers the block of a command, or deciphers it.
fn map_block(t: Tape, back: bool, rest: &[u8], answer: &mut [u8]) -> Stepped
    requires { length answer.old ≡ 65 }
    ensures returned { result ≡ returned (map_block (way article back) t rest.now) }
    ensures bytes { answer.new ≡ over (map_block (way article back) t rest.now).written answer.old }
{
    if rest.len() < 65 {
        return say_number(ended(t), 8, rest.len(), answer);
    }
    let number = map_refusal(t, &rest[1..65]);
    if number != 0 {
        return say_number(t, number, 65, answer);
    }
    let k = t.key;
    let used = 16 * k.n;
    let end = 1 + used;
    let mut block = strings::zero_block();
    map_used(k, back, &rest[1..end], &mut block[..used]);
    say_bytes(t, 65, &block[..used], answer)
}

// ---- 05

// Mixes a word.
fn mix_word(t: Tape, rest: &[u8], answer: &mut [u8]) -> Stepped
    requires { length answer.old ≡ 65 }
    ensures returned { result ≡ returned (mix_word t rest.now) }
    ensures bytes { answer.new ≡ over (mix_word t rest.now).written answer.old }
{
    if rest.len() < 9 {
        return say_number(ended(t), 8, rest.len(), answer);
    }
    let mut operand = [0u8; 8];
    strings::copy_into(&mut operand, &rest[1..9]);
    let mixed = operands::mix_bytes(&operand);
    say_bytes(t, 9, &mixed, answer)
}

// ---- a step

// By the command byte.
fn obey(t: Tape, rest: &[u8], answer: &mut [u8]) -> Stepped
    requires { (0 < length rest.now) × (length answer.old ≡ 65) }
    ensures returned { result ≡ returned (command (get_or rest.now 0 0) t rest.now) }
    ensures bytes { answer.new ≡ over (command (get_or rest.now 0 0) t rest.now).written answer.old }
{
    let c = rest[0];
    match c {
        0 => ends(t, 1),
        1 => set_key(t, rest, answer),
        3 => map_block(t, false, rest, answer),
        4 => map_block(t, true, rest, answer),
        5 => mix_word(t, rest, answer),
        _ => say_number(ended(t), 7, 1, answer),
    }
}

// One step of the tape: 5 if the answer buffer isn't 65 bytes, then the end of the tape, then a command.
pub fn step(t: Tape, rest: &[u8], answer: &mut [u8]) -> Stepped
    ensures returned { result ≡ returned (spec.step t rest.now (length answer.old)) }
    ensures bytes { answer.new ≡ over (spec.step t rest.now (length answer.old)).written answer.old }
{
    if answer.len() != 65 {
        return Stepped {
            number: 5,
            taken: 0,
            written: 0,
            next: t,
        };
    }
    if t.ended {
        return ends(t, 0);
    }
    if rest.len() == 0 {
        return at_end(t, answer);
    }
    obey(t, rest, answer)
}
