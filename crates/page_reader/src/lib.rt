// The keyed reader of page records (document 02, Job 9): keys, layout, tag and destination are checked in this order, and only then is the body opened.
#![tactic(auto)]

ghost use Rattle.std.specs.Prelude.{◌≡◌, true, ◌*◌, length};
ghost use Rattle.forms.specs.Refusals.{outcome};
ghost use Rattle.sets.specs.Sets.{loaded};
ghost use Rattle.pages.specs.Pages.{blocks, is_record, parts, tagged};
ghost use Rattle.keyed_pages.specs.Keyed.{tag_under, opened};
ghost use Rattle.keyed_pages.specs.Refusals.{for_keys, read_refusal};

use labyrinth::WorkingKey;
use sets::Store;

// 1, 15 and 12 for the sealing key, the same for the tag key.
fn keys_refusal(store: Store, sealing: WorkingKey, tagging: WorkingKey) -> u8
    ensures { result ≡ for_keys store sealing tagging 0 }
{
    let further = keyed_pages::key_refusal(tagging.n, stores::is_loaded(store, tagging.set), 0);
    keyed_pages::key_refusal(sealing.n, stores::is_loaded(store, sealing.set), further)
}

// Whether a record's tag, its last 16 bytes, is the one of all bytes before 1F.
fn is_tagged(store: Store, k: WorkingKey, bytes: &[u8]) -> bool
    requires { (k.n ≡ 1) × (loaded store k.set ≡ true) × (is_record bytes.now ≡ true) }
    ensures { result ≡ tagged (tag_under store k) (parts bytes.now) }
{
    let at = bytes.len() - 17;
    let behind = at + 1;
    let v = cmac::verify(store, k, &bytes[..at], &bytes[behind..]);
    v.yes
}

// All checks in their order: the keys, 19, 20, 5.
fn read_refusal(
    store: Store,
    sealing: WorkingKey,
    tagging: WorkingKey,
    bytes: &[u8],
    destination: usize,
) -> u8
    ensures { result ≡ read_refusal store sealing tagging bytes.now destination }
{
    let keys = keys_refusal(store, sealing, tagging);
    if keys != 0 {
        return keys;
    }
    let e = catalogue::catalogue(bytes);
    if e.number != 0 {
        return 19;
    }
    if !is_tagged(store, tagging, bytes) {
        return 20;
    }
    if destination != 16 * e.blocks {
        return 5;
    }
    0
}

// Opens the body of a record: its sealed blocks are gathered in dst, and opened there.
fn open_body(store: Store, k: WorkingKey, bytes: &[u8], dst: &mut [u8])
    requires { (k.n ≡ 1) × (loaded store k.set ≡ true) × (is_record bytes.now ≡ true) × (length dst.old ≡ 16 * blocks bytes.now) }
    ensures { dst.new ≡ opened store k bytes.now }
{
    let at = bytes.len() - 17;
    page_blocks::gather(&bytes[60..at], dst);
    cbc_in_place::open(store, k, &bytes[44..60], dst);
}

// Opens the body of the record that bytes are to dst, 16 bytes for each block. Nothing is opened unless the tag is right.
pub fn open(
    store: Store,
    sealing: WorkingKey,
    tagging: WorkingKey,
    bytes: &[u8],
    dst: &mut [u8],
) -> u8
    ensures number { result ≡ read_refusal store sealing tagging bytes.now (length dst.old) }
    ensures body { dst.new ≡ outcome result (opened store sealing bytes.now) dst.old }
{
    let number = read_refusal(store, sealing, tagging, bytes, dst.len());
    let opens = number == 0;
    if opens {
        open_body(store, sealing, bytes, dst);
    }
    number
}
