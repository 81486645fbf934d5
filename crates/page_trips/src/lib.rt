// A page record written and read again by the operations themselves, for all arguments: the keyed reader gets the body, or the first refusal stands.
#![tactic(auto)]

ghost use Rattle.std.specs.Prelude.{◌≡◌, eqb, length};
ghost use Rattle.forms.specs.Refusals.{unless, outcome, first_of};
ghost use Rattle.publishers.specs.Pages.{SameSet};
ghost use Rattle.keyed_pages.specs.Keyed.{written, opened};
ghost use Rattle.keyed_pages.specs.Refusals.{write_refusal, read_refusal};

use labyrinth::WorkingKey;
use sets::Store;

// Writes a record to mid with one store and, if that was not refused, reads it to dst with another: if both have the sets of both keys alike, only the length of dst can be
// wrong, and dst then holds the body.
pub fn written_and_opened(
    writing: Store,
    reading: Store,
    sealing: WorkingKey,
    tagging: WorkingKey,
    number: u32,
    day: u32,
    title: &[u8],
    start: &[u8],
    body: &[u8],
    mid: &mut [u8],
    dst: &mut [u8],
) -> u8
    ensures number { result ≡ first_of (write_refusal writing sealing tagging (length title.now) (length start.now) (length body.now) (length mid.old)) (read_refusal reading sealing tagging (written writing sealing tagging number day title.now start.now body.now) (length dst.old)) }
    ensures page { mid.new ≡ outcome (write_refusal writing sealing tagging (length title.now) (length start.now) (length body.now) (length mid.old)) (written writing sealing tagging number day title.now start.now body.now) mid.old }
    ensures body { dst.new ≡ outcome result (opened reading sealing (written writing sealing tagging number day title.now start.now body.now)) dst.old }
    ensures right { SameSet sealing.set writing reading → SameSet tagging.set writing reading → result ≡ first_of (write_refusal writing sealing tagging (length title.now) (length start.now) (length body.now) (length mid.old)) (unless (eqb (length dst.old) (length body.now)) 5 0) }
    ensures back { SameSet sealing.set writing reading → SameSet tagging.set writing reading → dst.new ≡ outcome result body.now dst.old }
{
    let first = page_writer::write(
        writing, sealing, tagging, number, day, title, start, body, mid,
    );
    if first != 0 {
        return first;
    }
    page_reader::open(reading, sealing, tagging, mid, dst)
}
