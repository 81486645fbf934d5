// A run in CTR mode sealed and opened again by the operation itself: for all arguments the source comes back, or the first refusal.
#![tactic(auto)]

ghost use Rattle.std.specs.Prelude.{◌≡◌, ◌*◌, length};
ghost use Rattle.forms.specs.Refusals.{outcome, first_of};
ghost use Rattle.labyrinth.specs.Keys.{E};
ghost use Rattle.labyrinth.specs.Refusals.{under_key};
ghost use Rattle.sets.specs.Sets.{loaded, parts_in};
ghost use Rattle.publishers.specs.Pages.{SameSet};
ghost use Rattle.modes.specs.Ctr.{ctr as ctrRun};
ghost use Rattle.modes.specs.Refusals.{ctr_refusal};

use labyrinth::WorkingKey;
use sets::Store;

// Seals src to mid with one store and, if that was not refused, opens mid to dst with another: if both have the key's set alike, dst then
// holds what src holds.
pub fn ctr_there_and_back(
    sealing: Store,
    opening: Store,
    k: WorkingKey,
    start: &[u8],
    q: u64,
    src: &[u8],
    mid: &mut [u8],
    dst: &mut [u8],
) -> u8
    ensures number { result ≡ first_of (under_key k.n (loaded sealing k.set) (ctr_refusal k.n (length start.now) (length src.now) (length mid.old))) (under_key k.n (loaded opening k.set) (ctr_refusal k.n (length start.now) (length mid.old) (length dst.old))) }
    ensures sealed { mid.new ≡ outcome (under_key k.n (loaded sealing k.set) (ctr_refusal k.n (length start.now) (length src.now) (length mid.old))) (ctrRun (E (parts_in sealing k.set) k.n k.words) (16 * k.n) start.now q src.now) mid.old }
    ensures opened { dst.new ≡ outcome result (ctrRun (E (parts_in opening k.set) k.n k.words) (16 * k.n) start.now q (ctrRun (E (parts_in sealing k.set) k.n k.words) (16 * k.n) start.now q src.now)) dst.old }
    ensures back { SameSet k.set sealing opening → dst.new ≡ outcome result src.now dst.old }
{
    let number = ctr::run(sealing, k, start, q, src, mid);
    if number != 0 {
        return number;
    }
    ctr::run(opening, k, start, q, mid, dst)
}
