// Is a row good enough? Standard input has rows in hexadecimal, sixteen digits each, g_0 first; spaces and ends of lines are passed over. For
// each row a line: the row, and 'yes' if every word that isn't zero has nine or more non-zero bytes before and after mixing together; else
// 'no', a word that has fewer, its highest digit first, and how many it has before, after and together. What is no row is said on standard
// error, and nothing behind it is judged.
#![tactic(auto)]

ghost use Rattle.std.specs.Prelude.{◌≡◌, length};

use std::io;

fn print_row(rt: &impl Print, g: [u8; 8]) -> io::Result<()> {
    for coefficient in g {
        print!(rt; "{coefficient:02x}")?;
    }
    Ok(())
}

// The word that falls short, and its counts.
fn print_word(rt: &impl Print, g: [u8; 8], w: u64) -> io::Result<()> {
    let before = u64::from(counts::active_bytes(w));
    let after = u64::from(counts::active_bytes(row_mixing::mix_row(g, w)));
    let together = before + after;
    print!(rt; " no {w:016x} before {before} after {after} together {together}")
}

fn print_verdict(rt: &impl Print, g: [u8; 8]) -> io::Result<()> {
    print_row(rt, g)?;
    let v = judge::judge(g);
    if v.yes {
        print!(rt; " yes")?;
    } else {
        print_word(rt, g, v.word)?;
    }
    println!(rt)
}

// What a byte of the text is.
enum Sign {
    Digit(u8),
    Space,
    Other,
}

fn sign_of(b: u8) -> Sign {
    match b {
        b'0'..=b'9' => Sign::Digit(b - b'0'),
        b'A'..=b'F' => Sign::Digit(b - b'A' + 10),
        b'a'..=b'f' => Sign::Digit(b - b'a' + 10),
        b' ' | b'\t' | b'\n' | b'\r' => Sign::Space,
        _ => Sign::Other,
    }
}

// How far a text has come: the digits of a row that isn't whole yet and how many they are, whether a row was judged, and whether
// something stands there that is no row.
#[derive(Clone, Copy)]
struct Text {
    word: u64,
    digits: usize,
    judged: bool,
    wrong: bool,
}

// A byte more; with the sixteenth digit the row is judged, whose digits a word has, g_0 highest.
fn take(rt: &impl Print, t: Text, b: u8) -> io::Result<Text> {
    if t.wrong {
        return Ok(t);
    }
    let value = match sign_of(b) {
        Sign::Digit(value) => value,
        Sign::Space => return Ok(t),
        Sign::Other => return Ok(Text { wrong: true, ..t }),
    };
    let word = (t.word << 4) | u64::from(value);
    if t.digits < 15 {
        return Ok(Text {
            word,
            digits: t.digits + 1,
            ..t
        });
    }
    print_verdict(rt, word.to_be_bytes())?;
    Ok(Text {
        word: 0,
        digits: 0,
        judged: true,
        wrong: false,
    })
}

// Judges the rows of a text.
fn judge_rows(rt: &impl Print, text: &[u8]) -> io::Result<Text> {
    let mut t = Text {
        word: 0,
        digits: 0,
        judged: false,
        wrong: false,
    };
    for b in text {
        t = take(rt, t, *b)?;
    }
    Ok(t)
}

// Room for a text.
fn blank() -> [u8; 65536]
    ensures { 65536 ≡ length result }
{
    [0; 65536]
}

// Of a text of 65,536 bytes or more the first so many are read. A read or a write that fails ends the program with its error.
fn main(rt: HostRuntime) -> io::Result<()> {
    let mut space = blank();
    let got = readers::read_full(&mut rt.stdin(), &mut space)?;
    let t = judge_rows(&rt, &space[..got])?;
    if t.wrong || t.digits != 0 || !t.judged {
        eprintln!(rt; "judge_row: a row is sixteen hexadecimal digits")?;
    }
    if got == 65536 {
        eprintln!(rt; "judge_row: nothing behind 65536 bytes is read")?;
    }
    Ok(())
}
