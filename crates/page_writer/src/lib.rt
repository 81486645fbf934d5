// The writer of page records (document 02, Job 9): a record of number, day, title, start block and body, sealed and tagged.
#![tactic(auto)]

ghost use Rattle.std.specs.Prelude.{◌≡◌, true, ◌+◌, ◌*◌, ◌/◌, ◌%◌, length};
ghost use Rattle.forms.specs.Refusals.{outcome};
ghost use Rattle.sets.specs.Sets.{loaded};
ghost use Rattle.pages.specs.Pages.{sealed_commands};
ghost use Rattle.keyed_pages.specs.Keyed.{seal_under, tag_under, written};
ghost use Rattle.keyed_pages.specs.Refusals.{write_refusal};

use labyrinth::WorkingKey;
use sets::Store;

// The sealed blocks of a body, each behind its command byte: sealed at the end of their stretch, then moved apart.
fn put_blocks(store: Store, k: WorkingKey, start: &[u8], body: &[u8], d: &mut [u8])
    requires { (k.n ≡ 1) × (loaded store k.set ≡ true) × (length start.now ≡ 16) × (length body.now % 16 ≡ 0) × (length d.old ≡ 17 * (length body.now / 16)) }
    ensures { d.new ≡ sealed_commands (length body.now / 16) (seal_under store k start.now body.now) }
{
    let count = body.len() / 16;
    cbc::seal(store, k, start, body, &mut d[count..]);
    page_blocks::apart(d);
}

// The tag of a message, 16 bytes.
fn tag_of(store: Store, k: WorkingKey, message: &[u8]) -> [u8; 16]
    requires { (k.n ≡ 1) × (loaded store k.set ≡ true) }
    ensures { result ≡ tag_under store k message.now }
{
    let mut tag = [0u8; 16];
    cmac::make(store, k, message, &mut tag);
    tag
}

// The whole record, where nothing is refused. The tag is of all bytes but the last 17.
fn put_record(
    store: Store,
    sealing: WorkingKey,
    tagging: WorkingKey,
    number: u32,
    day: u32,
    title: &[u8],
    start: &[u8],
    body: &[u8],
    d: &mut [u8],
)
    requires { write_refusal store sealing tagging (length title.now) (length start.now) (length body.now) (length d.old) ≡ 0 }
    ensures { d.new ≡ written store sealing tagging number day title.now start.now body.now }
{
    let at = 60 + 17 * (body.len() / 16);
    let covered = d.len() - 17;
    page_heads::put_head(number, day, title, start, &mut d[0..60]);
    put_blocks(store, sealing, start, body, &mut d[60..at]);
    let tag = tag_of(store, tagging, &d[..covered]);
    page_heads::put_command(&mut d[at..], 0x1F, &tag);
}

// The checks in their order: 1, 15 and 12 for the sealing key, the same for the tag key, then 19, 6, 4 and 5 for the lengths.
fn write_refusal(
    store: Store,
    sealing: WorkingKey,
    tagging: WorkingKey,
    title: usize,
    start: usize,
    body: usize,
    destination: usize,
) -> u8
    ensures { result ≡ write_refusal store sealing tagging title start body destination }
{
    let lengths = keyed_pages::write_lengths(title, start, body, destination);
    let further = keyed_pages::key_refusal(
        tagging.n,
        stores::is_loaded(store, tagging.set),
        lengths,
    );
    keyed_pages::key_refusal(sealing.n, stores::is_loaded(store, sealing.set), further)
}

// Writes the record to dst, 77 bytes and 17 for each block of the body.
pub fn write(
    store: Store,
    sealing: WorkingKey,
    tagging: WorkingKey,
    number: u32,
    day: u32,
    title: &[u8],
    start: &[u8],
    body: &[u8],
    dst: &mut [u8],
) -> u8
    ensures number { result ≡ write_refusal store sealing tagging (length title.now) (length start.now) (length body.now) (length dst.old) }
    ensures page { dst.new ≡ outcome result (written store sealing tagging number day title.now start.now body.now) dst.old }
{
    let refusal = write_refusal(
        store,
        sealing,
        tagging,
        title.len(),
        start.len(),
        body.len(),
        dst.len(),
    );
    if refusal != 0 {
        return refusal;
    }
    put_record(
        store, sealing, tagging, number, day, title, start, body, dst,
    );
    0
}
