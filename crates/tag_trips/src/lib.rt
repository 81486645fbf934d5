// A tag made and verified by the operations themselves: for all arguments it gets a yes, or both have the same refusal.
#![tactic(auto)]

ghost use Rattle.std.specs.Prelude.{◌≡◌, eqb, length};
ghost use Rattle.forms.specs.Refusals.{outcome};
ghost use Rattle.labyrinth.specs.Keys.{E};
ghost use Rattle.labyrinth.specs.Refusals.{under_key};
ghost use Rattle.sets.specs.Sets.{loaded, parts_in};
ghost use Rattle.modes.specs.Cmac.{tag as madeTag};
ghost use Rattle.modes.specs.Refusals.{cmac_refusal};

use cmac::Verified;
use labyrinth::WorkingKey;
use sets::Store;

// Makes a message's tag and verifies it: yes, unless it was refused.
pub fn tag_made_and_verified(
    store: Store,
    k: WorkingKey,
    message: &[u8],
    tag: &mut [u8],
) -> Verified
    ensures answer { result ≡ record { number = under_key k.n (loaded store k.set) (cmac_refusal k.n (length tag.old)); yes = eqb (under_key k.n (loaded store k.set) (cmac_refusal k.n (length tag.old))) 0 } }
    ensures made { tag.new ≡ outcome (under_key k.n (loaded store k.set) (cmac_refusal k.n (length tag.old))) (madeTag (E (parts_in store k.set) k.n k.words) (length tag.old) message.now) tag.old }
{
    cmac::make(store, k, message, tag);
    cmac::verify(store, k, message, tag)
}
