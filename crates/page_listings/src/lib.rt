// A page record written and catalogued by the operations themselves, for all arguments: the catalogue reader gets number, day, block count and title, or the writer's refusal
// stands.
#![tactic(auto)]

ghost use Rattle.std.specs.Prelude.{◌≡◌, ◌/◌, eqb, length};
ghost use Rattle.forms.specs.Lists.{when};
ghost use Rattle.forms.specs.Refusals.{outcome};
ghost use Rattle.keyed_pages.specs.Keyed.{written};
ghost use Rattle.keyed_pages.specs.Refusals.{write_refusal};

use catalogue::Entry;
use labyrinth::WorkingKey;
use sets::Store;

// What stands for a record that was not written.
fn refused(number: u8) -> Entry
    ensures { result ≡ record { number = number; page = 0; day = 0; blocks = 0 } }
{
    Entry {
        number: number,
        page: 0,
        day: 0,
        blocks: 0,
    }
}

// Writes a record to mid and, if that was not refused, catalogues it: number, day and block count are those handed in.
pub fn written_and_catalogued(
    store: Store,
    sealing: WorkingKey,
    tagging: WorkingKey,
    number: u32,
    day: u32,
    title: &[u8],
    start: &[u8],
    body: &[u8],
    mid: &mut [u8],
) -> Entry
    ensures entry { result ≡ when (eqb (write_refusal store sealing tagging (length title.now) (length start.now) (length body.now) (length mid.old)) 0) (record { number = 0; page = number; day = day; blocks = length body.now / 16 }) (record { number = write_refusal store sealing tagging (length title.now) (length start.now) (length body.now) (length mid.old); page = 0; day = 0; blocks = 0 }) }
    ensures page { mid.new ≡ outcome (write_refusal store sealing tagging (length title.now) (length start.now) (length body.now) (length mid.old)) (written store sealing tagging number day title.now start.now body.now) mid.old }
{
    let r = page_writer::write(
        store, sealing, tagging, number, day, title, start, body, mid,
    );
    let stopped = r != 0;
    if stopped {
        return refused(r);
    }
    catalogue::catalogue(mid)
}

// Writes a record to mid and, if that was not refused, tells whether the title that the catalogue reader gets is the one handed in: it always is.
pub fn written_and_titled(
    store: Store,
    sealing: WorkingKey,
    tagging: WorkingKey,
    number: u32,
    day: u32,
    title: &[u8],
    start: &[u8],
    body: &[u8],
    mid: &mut [u8],
) -> bool
    ensures same { result ≡ eqb (write_refusal store sealing tagging (length title.now) (length start.now) (length body.now) (length mid.old)) 0 }
    ensures page { mid.new ≡ outcome (write_refusal store sealing tagging (length title.now) (length start.now) (length body.now) (length mid.old)) (written store sealing tagging number day title.now start.now body.now) mid.old }
{
    let refusal = page_writer::write(
        store, sealing, tagging, number, day, title, start, body, mid,
    );
    if refusal != 0 {
        return false;
    }
    strings::equal(catalogue::title(mid), title)
}
