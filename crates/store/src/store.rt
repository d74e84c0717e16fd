ghost use Rattle.std.specs.Prelude.{◌≡◌, ℕ, true, List};
ghost use Rattle.vectors.specs.Sets.{gained, cleared, usable_word};
ghost use Rattle.sink.specs.Meaning.{Sound, with_parked, with_rung, with_quiet, with_aim};
ghost use Rattle.store.specs.Forms.{Form, means};

use sink::{Aim, Marks};
use vectors::{Group, UsableVector};

// What keeps a sink's parked vectors and its marks in bytes.
pub trait Store {
    // How the sink lies in the bytes, and the bytes.
    ghost form: { Form };

    ghost bytes: { Self → List ℕ };

    // What no call changes: the ghost names of the references that the store holds. Each clause repeats it, since a fact of the
    // value before and the value after a call can't stand in a type.
    ghost fixed: { Self → List (List ℕ) };

    // The parked vectors of a group.
    fn word(&self, group: Group) -> u64
        ensures value { result ≡ form.parked (bytes self.now) group }
        ensures usable { usable_word group result ≡ true };

    // Also that they are those of a sound sink; a question says it, and no law, for the reason that `Sink` gives.
    fn marks(&self) -> Marks
        ensures value { result ≡ form.marks (bytes self.now) }
        ensures sound { Sound (means form (bytes self.now)) };

    // Parks a vector.
    fn note(&mut self, vector: UsableVector)
        ensures bytes { bytes self.new ≡ form.noted (bytes self.old) vector }
        ensures after { means form (bytes self.new) ≡ with_parked (means form (bytes self.old)) (gained (form.parked (bytes self.old)) vector) }
        ensures fixed { fixed self.new ≡ fixed self.old };

    // Takes out the parked vectors of a group.
    fn empty(&mut self, group: Group)
        ensures bytes { bytes self.new ≡ form.emptied (bytes self.old) group }
        ensures after { means form (bytes self.new) ≡ with_parked (means form (bytes self.old)) (cleared (form.parked (bytes self.old)) group) }
        ensures fixed { fixed self.new ≡ fixed self.old };

    fn set_rung(&mut self, rung: bool)
        ensures bytes { bytes self.new ≡ form.with_rung (bytes self.old) rung }
        ensures after { means form (bytes self.new) ≡ with_rung (means form (bytes self.old)) rung }
        ensures fixed { fixed self.new ≡ fixed self.old };

    fn set_quiet(&mut self, quiet: bool)
        ensures bytes { bytes self.new ≡ form.with_quiet (bytes self.old) quiet }
        ensures after { means form (bytes self.new) ≡ with_quiet (means form (bytes self.old)) quiet }
        ensures fixed { fixed self.new ≡ fixed self.old };

    fn set_aim(&mut self, aim: Aim)
        ensures bytes { bytes self.new ≡ form.with_aim (bytes self.old) aim }
        ensures after { means form (bytes self.new) ≡ with_aim (means form (bytes self.old)) aim }
        ensures fixed { fixed self.new ≡ fixed self.old };
}
