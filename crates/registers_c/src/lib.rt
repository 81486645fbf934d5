// A register of page keys as C sees it: a key added, and a number looked up. The register is bytes in a buffer that the caller lends
// (crates/register_records). include/labyrinth.h declares these functions.
#![tactic(auto)]

ghost use Rattle.std.specs.Prelude.{◌≡◌, eqb, length};
ghost use Rattle.forms.specs.Lists.{pick};
ghost use Rattle.forms.specs.Refusals.{outcome};
ghost use Rattle.registers.specs.Registers.{held, add_refusal, look_up_refusal, look_up};
ghost use Rattle.registers.specs.Registers as spec;
ghost use Rattle.register_layout.specs.Layout.{entry_bytes, register_in, register_bytes};
ghost use Rattle.register_layout.specs.Numbers.{register_number};

use registers::Entry;

// Adds a key: only the count's bytes and the new entry's are written.
#[unsafe(no_mangle)]
pub extern "C" fn labyrinth_register_add(
    reg: &mut [u8],
    number: u16,
    replaces: u16,
    wrapped: &[u8],
) -> u8
    ensures number { result ≡ register_number (length reg.old) (length wrapped.now) 40 (add_refusal (held (register_in reg.old)) number replaces) }
    ensures register { reg.new ≡ outcome result (register_bytes (spec.add (register_in reg.old) number replaces wrapped.now).register) reg.old }
{
    if reg.len() != 2824 {
        return 4;
    }
    if wrapped.len() != 40 {
        return 4;
    }
    let key = register_records::key_of(wrapped);
    let added = key_register::add(register_records::register_of(reg), number, replaces, key);
    if added.number != 0 {
        return added.number;
    }
    let e = Entry {
        number: number,
        replaces: replaces,
        key: key,
    };
    register_records::extend(e, reg);
    0
}

// Looks a number up. Every call sets rule and followed.
#[unsafe(no_mangle)]
pub extern "C" fn labyrinth_register_find(
    reg: &[u8],
    number: u16,
    entry: &mut [u8],
    rule: &mut u8,
    followed: &mut u64,
) -> u8
    ensures number { result ≡ register_number (length reg.now) (length entry.old) 44 (look_up_refusal (held (register_in reg.now)) number) }
    ensures entry { entry.new ≡ outcome result (entry_bytes (look_up (register_in reg.now) number).entry) entry.old }
    ensures rule { rule.new ≡ pick (eqb result 0) (look_up (register_in reg.now) number).rule }
    ensures followed { followed.new ≡ pick (eqb result 0) (look_up (register_in reg.now) number).followed }
{
    *rule = 0;
    *followed = 0;
    if reg.len() != 2824 {
        return 4;
    }
    let other = entry.len() != 44;
    if other {
        return 4;
    }
    let found = key_register::look_up(register_records::register_of(reg), number);
    if found.number != 0 {
        return found.number;
    }
    *rule = found.rule;
    *followed = found.followed as u64;
    let e = found.entry;
    register_records::put_entry(e, entry);
    0
}
