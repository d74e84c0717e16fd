// What the owner of 64 bytes knows of each of them after a visitor was at the descriptor in them.
ghost use Rattle.std.specs.Prelude.{◌≡◌, MatchResult};
ghost use Rattle.descriptor.specs.Layout.{Judged};
ghost use Rattle.piles.specs.Asked.{PostedInto};

use crate::posts::{FrozenPost, Post};
use descriptor::with_descriptor;
use layers::Migrated;
use sink::Placed;
use vectors::Fault;

// Posts a vector to the descriptor in the bytes: its bit is set if it is usable, and every other bit is as it was.
pub fn post(bytes: &mut [u8], vector: u8) -> Result<Result<Placed, Fault>, descriptor::Fault>
    ensures judged { Judged bytes.old result }
    ensures after { MatchResult result (λ r. PostedInto bytes.old vector r bytes.new) (λ _. bytes.new ≡ bytes.old) }
{
    let mut visitor = Post { vector };
    with_descriptor(bytes, &mut visitor)
}

// The same with a freeze first: a descriptor alone keeps nothing back.
#[tactic(auto, using(crate::proofs::Owners::frozen_known))]
pub fn freeze_and_post(
    bytes: &mut [u8],
    vector: u8,
) -> Result<Result<Placed, Fault>, descriptor::Fault>
    ensures judged { Judged bytes.old result }
    ensures after { MatchResult result (λ r. PostedInto bytes.old vector r bytes.new) (λ _. bytes.new ≡ bytes.old) }
{
    let mut visitor = FrozenPost { vector };
    with_descriptor(bytes, &mut visitor)
}

// The same with a migration layer between: only the freeze reaches the bytes, and every byte stays.
#[tactic(auto, using(crate::proofs::Owners::above_known))]
pub fn freeze_and_post_above(
    bytes: &mut [u8],
    vector: u8,
) -> Result<Result<Placed, Fault>, descriptor::Fault>
    ensures judged { Judged bytes.old result }
    ensures after { bytes.new ≡ bytes.old }
{
    let mut frozen = FrozenPost { vector };
    let mut above = Migrated { inner: &mut frozen };
    with_descriptor(bytes, &mut above)
}
