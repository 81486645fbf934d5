// A key wrapped and unwrapped again by the operations themselves, and a wrapped key unwrapped and wrapped: for all arguments the source comes back, or
// the first refusal.
#![tactic(auto)]

ghost use Rattle.std.specs.Prelude.{◌≡◌, true, length};
ghost use Rattle.forms.specs.Refusals.{outcome, first_of};
ghost use Rattle.labyrinth.specs.Keys.{E, U};
ghost use Rattle.labyrinth.specs.Refusals.{under_key};
ghost use Rattle.sets.specs.Sets.{loaded, parts_in};
ghost use Rattle.publishers.specs.Pages.{SameSet};
ghost use Rattle.modes.specs.KeyWrap.{wrapped, authentic, unwrapped};
ghost use Rattle.modes.specs.Refusals.{wrap_refusal, unwrap_refusal};

use labyrinth::WorkingKey;
use sets::Store;

// Wraps the key in src to mid with one store and, if that was not refused, unwraps mid to dst with another: if both have the working key's set alike, no
// check value is wrong, and dst then holds what src holds.
pub fn key_wrapped_and_unwrapped(
    wrapping: Store,
    unwrapping: Store,
    k: WorkingKey,
    src: &[u8],
    mid: &mut [u8],
    dst: &mut [u8],
) -> u8
    ensures number { result ≡ first_of (under_key k.n (loaded wrapping k.set) (wrap_refusal k.n (length src.now) (length mid.old))) (under_key k.n (loaded unwrapping k.set) (unwrap_refusal k.n (length mid.old) (length dst.old) (authentic (U (parts_in unwrapping k.set) k.n k.words) (wrapped (E (parts_in wrapping k.set) k.n k.words) src.now)))) }
    ensures sent { mid.new ≡ outcome (under_key k.n (loaded wrapping k.set) (wrap_refusal k.n (length src.now) (length mid.old))) (wrapped (E (parts_in wrapping k.set) k.n k.words) src.now) mid.old }
    ensures key { dst.new ≡ outcome result (unwrapped (U (parts_in unwrapping k.set) k.n k.words) (wrapped (E (parts_in wrapping k.set) k.n k.words) src.now)) dst.old }
    ensures right { SameSet k.set wrapping unwrapping → result ≡ first_of (under_key k.n (loaded wrapping k.set) (wrap_refusal k.n (length src.now) (length mid.old))) (under_key k.n (loaded unwrapping k.set) (unwrap_refusal k.n (length mid.old) (length dst.old) true)) }
    ensures back { SameSet k.set wrapping unwrapping → dst.new ≡ outcome result src.now dst.old }
{
    let number = key_wrap::wrap(wrapping, k, src, mid);
    if number != 0 {
        return number;
    }
    key_wrap::unwrap(unwrapping, k, mid, dst)
}

// Unwraps src to mid with one store and, if that was not refused, wraps the key in mid to dst with another: if both have the working key's set alike, dst
// then holds what src holds, so what unwrapping accepts is what wrapping produces.
pub fn key_unwrapped_and_wrapped(
    unwrapping: Store,
    wrapping: Store,
    k: WorkingKey,
    src: &[u8],
    mid: &mut [u8],
    dst: &mut [u8],
) -> u8
    ensures number { result ≡ first_of (under_key k.n (loaded unwrapping k.set) (unwrap_refusal k.n (length src.now) (length mid.old) (authentic (U (parts_in unwrapping k.set) k.n k.words) src.now))) (under_key k.n (loaded wrapping k.set) (wrap_refusal k.n (length mid.old) (length dst.old))) }
    ensures key { mid.new ≡ outcome (under_key k.n (loaded unwrapping k.set) (unwrap_refusal k.n (length src.now) (length mid.old) (authentic (U (parts_in unwrapping k.set) k.n k.words) src.now))) (unwrapped (U (parts_in unwrapping k.set) k.n k.words) src.now) mid.old }
    ensures sent { dst.new ≡ outcome result (wrapped (E (parts_in wrapping k.set) k.n k.words) (unwrapped (U (parts_in unwrapping k.set) k.n k.words) src.now)) dst.old }
    ensures back { SameSet k.set unwrapping wrapping → dst.new ≡ outcome result src.now dst.old }
{
    let number = key_wrap::unwrap(unwrapping, k, src, mid);
    if number != 0 {
        return number;
    }
    key_wrap::wrap(wrapping, k, mid, dst)
}
