// Byte strings as numbers, the first byte the highest: adding to one and doubling it.
#![tactic(auto)]

ghost use Rattle.std.specs.Prelude.{◌≡◌, ◌+◌, ◌*◌, length};
ghost use Rattle.forms.specs.Strings.{number, string};

// Adds v to the number that c is, modulo 2 to as many bits as c has. From the last byte up, and no further than the carry goes.
pub fn add_into(c: &mut [u8], v: u64)
    ensures { c.new ≡ string (length c.old) (number c.old + v) }
{
    let mut carry = v;
    for i in (0..c.len()).rev() {
        if carry == 0 {
            break;
        }
        let t = u64::from(c[i]) + carry % 256;
        c[i] = (t % 256) as u8;
        carry = carry / 256 + t / 256;
    }
}

// Doubles the number that c is, modulo 2 to as many bits as c has.
pub fn double_into(c: &mut [u8])
    ensures { c.new ≡ string (length c.old) (2 * number c.old) }
{
    let mut carry = 0u64;
    for i in (0..c.len()).rev() {
        let t = 2 * u64::from(c[i]) + carry;
        c[i] = (t % 256) as u8;
        carry = t / 256;
    }
}
