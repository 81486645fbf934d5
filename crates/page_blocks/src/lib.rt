// Sealed blocks of a page record (document 02, Job 9): moved apart, so that each stands behind its command byte 15, and gathered again.
#![tactic(auto)]

ghost use Rattle.std.specs.Prelude.{◌≡◌, ◌∷◌, ◌*◌, ◌/◌, ◌%◌, eqb, length, drop};
ghost use Rattle.forms.specs.Refusals.{unless, outcome};
ghost use Rattle.pages.specs.Pages.{sealed_commands, sealed_operands};

// A command 15 with its block.
fn block_command(block: &[u8]) -> [u8; 17]
    requires { length block.now ≡ 16 }
    ensures { result ≡ 0x15 ∷ block.now }
{
    let mut r = [0u8; 17];
    r[0] = 0x15;
    r[1..].copy_from_slice(block);
    r
}

// Fills a buffer from its front: no block is written over before it is moved.
fn move_blocks(d: &mut [u8], count: usize)
    requires { length d.old ≡ 17 * count }
    ensures { d.new ≡ sealed_commands count (drop count d.old) }
{
    for i in 0..count {
        let from = count + 16 * i;
        let c = block_command(&d[from..from + 16]);
        d[17 * i..17 * i + 17].copy_from_slice(&c);
    }
}

// The sealed blocks at the end of a buffer, which has a byte more for each, become commands 15: 5 for any other length.
pub fn apart(d: &mut [u8]) -> u8
    ensures number { result ≡ unless (eqb (length d.old % 17) 0) 5 0 }
    ensures blocks { d.new ≡ outcome result (sealed_commands (length d.old / 17) (drop (length d.old / 17) d.old)) d.old }
{
    if d.len() % 17 != 0 {
        return 5;
    }
    let count = d.len() / 17;
    move_blocks(d, count);
    0
}

// Copies the operands of commands one after another.
fn gather_blocks(commands: &[u8], d: &mut [u8])
    requires { (length commands.now ≡ 17 * (length commands.now / 17)) × (length d.old ≡ 16 * (length commands.now / 17)) }
    ensures { d.new ≡ sealed_operands (length commands.now / 17) commands.now }
{
    for i in 0..commands.len() / 17 {
        d[16 * i..16 * i + 16].copy_from_slice(&commands[17 * i + 1..17 * i + 17]);
    }
}

// The blocks of commands 15, one after another: 4 unless the commands are whole, then 5 for a destination not of the blocks' length.
pub fn gather(commands: &[u8], d: &mut [u8]) -> u8
    ensures number { result ≡ unless (eqb (length commands.now % 17) 0) 4 (unless (eqb (length d.old) (16 * (length commands.now / 17))) 5 0) }
    ensures blocks { d.new ≡ outcome result (sealed_operands (length commands.now / 17) commands.now) d.old }
{
    if commands.len() % 17 != 0 {
        return 4;
    }
    if d.len() != 16 * (commands.len() / 17) {
        return 5;
    }
    gather_blocks(commands, d);
    0
}
