// Page records under a sealing key and a tag key (document 02, Job 9): definitions (specs/) and laws (proofs/), and the checks of keys and lengths.
#![tactic(auto)]

ghost use Rattle.std.specs.Prelude.{◌≡◌, ◌/◌, ◌%◌, ◌&&◌, eqb, leb};
ghost use Rattle.forms.specs.Refusals.{unless};
ghost use Rattle.labyrinth.specs.Refusals.{under_key};
ghost use Rattle.keyed_pages.specs.Refusals.{write_lengths};

// 1, 15 and 12 for a key of this n, whose set is loaded or isn't; then what the further checks say.
pub fn key_refusal(n: usize, loaded: bool, further: u8) -> u8
    ensures { result ≡ under_key n loaded (unless (eqb n 1) 12 further) }
{
    let other = n != 1;
    if other {
        return labyrinth::under_key(n, loaded, 12);
    }
    labyrinth::under_key(n, loaded, further)
}

// Whether a body is 0 to 4,096 whole blocks.
fn is_body(body: usize) -> bool
    ensures { result ≡ (eqb (body % 16) 0 && leb (body / 16) 4096) }
{
    body % 16 == 0 && body / 16 <= 4096
}

// The writer's lengths: 19, 6, 4, 5.
pub fn write_lengths(title: usize, start: usize, body: usize, destination: usize) -> u8
    ensures { result ≡ write_lengths title start body destination }
{
    if title != 32 {
        return 19;
    }
    if start != 16 {
        return 6;
    }
    if !is_body(body) {
        return 4;
    }
    if destination != 77 + 17 * (body / 16) {
        return 5;
    }
    0
}
