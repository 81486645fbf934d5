// The library as C sees it: page records written, catalogued and opened. A store and two working keys are bytes that the caller lends
// (crates/records). include/labyrinth.h declares these functions.
#![tactic(auto)]

ghost use Rattle.std.specs.Prelude.{◌≡◌, length};
ghost use Rattle.forms.specs.Refusals.{outcome};
ghost use Rattle.records.specs.Records.{key_in, store_in};
ghost use Rattle.catalogue.specs.Catalogue.{entry};
ghost use Rattle.keyed_pages.specs.Keyed.{written, opened};
ghost use Rattle.keyed_pages.specs.Refusals.{write_refusal, read_refusal};
ghost use Rattle.pages_c.specs.LentPages.{lent_keys_number, title_at};

// Writes a page's record.
#[unsafe(no_mangle)]
pub extern "C" fn labyrinth_page_write(
    store: &[u8],
    sealing: &[u8],
    tagging: &[u8],
    number: u32,
    day: u32,
    title: &[u8],
    start: &[u8],
    body: &[u8],
    dst: &mut [u8],
) -> u8
    ensures number { result ≡ lent_keys_number store.now sealing.now tagging.now (write_refusal (store_in store.now) (key_in sealing.now) (key_in tagging.now) (length title.now) (length start.now) (length body.now) (length dst.old)) }
    ensures page { dst.new ≡ outcome result (written (store_in store.now) (key_in sealing.now) (key_in tagging.now) number day title.now start.now body.now) dst.old }
{
    if !records::fit(store.len(), sealing.len()) {
        return 4;
    }
    if !records::fit(store.len(), tagging.len()) {
        return 4;
    }
    let s = store_records::store_of(store);
    let k = key_records::key_of(sealing);
    let t = key_records::key_of(tagging);
    page_writer::write(s, k, t, number, day, title, start, body, dst)
}

// Where the title begins, by the catalogue's number.
fn title_place(number: u8) -> u64
    ensures { result ≡ title_at number }
{
    if number == 0 {
        return 11;
    }
    0
}

// Reads what stands in the open: number, day, block count and where the title is. Every call sets all four.
#[unsafe(no_mangle)]
pub extern "C" fn labyrinth_page_catalogue(
    bytes: &[u8],
    number: &mut u32,
    day: &mut u32,
    blocks: &mut u64,
    place: &mut u64,
) -> u8
    ensures number { result ≡ (entry bytes.now).number }
    ensures page { number.new ≡ (entry bytes.now).page }
    ensures day { day.new ≡ (entry bytes.now).day }
    ensures blocks { blocks.new ≡ (entry bytes.now).blocks }
    ensures title { place.new ≡ title_at result }
{
    let e = catalogue::catalogue(bytes);
    *number = e.page;
    *day = e.day;
    *blocks = e.blocks as u64;
    *place = title_place(e.number);
    e.number
}

// Verifies a page's record, and opens its body.
#[unsafe(no_mangle)]
pub extern "C" fn labyrinth_page_open(
    store: &[u8],
    sealing: &[u8],
    tagging: &[u8],
    bytes: &[u8],
    dst: &mut [u8],
) -> u8
    ensures number { result ≡ lent_keys_number store.now sealing.now tagging.now (read_refusal (store_in store.now) (key_in sealing.now) (key_in tagging.now) bytes.now (length dst.old)) }
    ensures body { dst.new ≡ outcome result (opened (store_in store.now) (key_in sealing.now) bytes.now) dst.old }
{
    if !records::fit(store.len(), sealing.len()) {
        return 4;
    }
    if !records::fit(store.len(), tagging.len()) {
        return 4;
    }
    let s = store_records::store_of(store);
    let k = key_records::key_of(sealing);
    let t = key_records::key_of(tagging);
    page_reader::open(s, k, t, bytes, dst)
}
