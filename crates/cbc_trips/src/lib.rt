// A run in CBC mode sealed and opened again by the operations themselves: for all arguments the source comes back, or the first refusal.
#![tactic(auto)]

ghost use Rattle.std.specs.Prelude.{◌≡◌, ◌*◌, length};
ghost use Rattle.forms.specs.Refusals.{outcome, first_of};
ghost use Rattle.labyrinth.specs.Keys.{E, U};
ghost use Rattle.labyrinth.specs.Refusals.{under_key};
ghost use Rattle.sets.specs.Sets.{loaded, parts_in};
ghost use Rattle.publishers.specs.Pages.{SameSet};
ghost use Rattle.modes.specs.Cbc.{cbc_seal, cbc_open};
ghost use Rattle.modes.specs.Refusals.{cbc_refusal};

use labyrinth::WorkingKey;
use sets::Store;

// Seals src to mid with one store and, if that was not refused, opens mid to dst with another: if both have the key's set alike, dst then
// holds what src holds.
pub fn cbc_there_and_back(
    sealing: Store,
    opening: Store,
    k: WorkingKey,
    start: &[u8],
    src: &[u8],
    mid: &mut [u8],
    dst: &mut [u8],
) -> u8
    ensures number { result ≡ first_of (under_key k.n (loaded sealing k.set) (cbc_refusal k.n (length start.now) (length src.now) (length mid.old))) (under_key k.n (loaded opening k.set) (cbc_refusal k.n (length start.now) (length mid.old) (length dst.old))) }
    ensures sealed { mid.new ≡ outcome (under_key k.n (loaded sealing k.set) (cbc_refusal k.n (length start.now) (length src.now) (length mid.old))) (cbc_seal (E (parts_in sealing k.set) k.n k.words) (16 * k.n) start.now src.now) mid.old }
    ensures opened { dst.new ≡ outcome result (cbc_open (U (parts_in opening k.set) k.n k.words) (16 * k.n) start.now (cbc_seal (E (parts_in sealing k.set) k.n k.words) (16 * k.n) start.now src.now)) dst.old }
    ensures back { SameSet k.set sealing opening → dst.new ≡ outcome result src.now dst.old }
{
    let number = cbc::seal(sealing, k, start, src, mid);
    if number != 0 {
        return number;
    }
    cbc::open(opening, k, start, mid, dst)
}
