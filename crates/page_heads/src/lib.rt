// Commands of a page record (document 02, Job 9) put into a buffer: one with its operand, and the four before the sealed blocks.
#![tactic(auto)]

ghost use Rattle.std.specs.Prelude.{◌≡◌, ◌++◌, ◌+◌, eqb, length};
ghost use Rattle.forms.specs.Refusals.{unless, outcome};
ghost use Rattle.pages.specs.Pages.{command, four_bytes};

// A command with its operand, in a buffer of their length.
fn lay_command(d: &mut [u8], c: u8, operand: &[u8])
    requires { length d.old ≡ 1 + length operand.now }
    ensures { d.new ≡ command c operand.now }
{
    d[0] = c;
    d[1..].copy_from_slice(operand);
}

// A command with its operand: 5 for a buffer of another length.
pub fn put_command(d: &mut [u8], c: u8, operand: &[u8]) -> u8
    ensures number { result ≡ unless (eqb (length d.old) (1 + length operand.now)) 5 0 }
    ensures bytes { d.new ≡ outcome result (command c operand.now) d.old }
{
    if d.len() != 1 + operand.len() {
        return 5;
    }
    lay_command(d, c, operand);
    0
}

// The commands before the blocks, 60 bytes: 19 for a title that isn't 32 bytes, 6 for the start block, 5 for the buffer.
pub fn put_head(number: u32, day: u32, title: &[u8], start: &[u8], d: &mut [u8]) -> u8
    ensures number { result ≡ unless (eqb (length title.now) 32) 19 (unless (eqb (length start.now) 16) 6 (unless (eqb (length d.old) 60) 5 0)) }
    ensures bytes { d.new ≡ outcome result (command 0x10 (four_bytes number) ++ (command 0x11 (four_bytes day) ++ (command 0x12 title.now ++ command 0x13 start.now))) d.old }
{
    if title.len() != 32 {
        return 19;
    }
    if start.len() != 16 {
        return 6;
    }
    if d.len() != 60 {
        return 5;
    }
    lay_command(&mut d[0..5], 0x10, &number.to_le_bytes());
    lay_command(&mut d[5..10], 0x11, &day.to_le_bytes());
    lay_command(&mut d[10..43], 0x12, title);
    lay_command(&mut d[43..60], 0x13, start);
    0
}
