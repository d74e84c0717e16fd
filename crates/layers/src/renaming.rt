// A layer that renames each posted vector by a table.
ghost use Rattle.std.specs.Prelude.{◌≡◌, ◌∷◌, if◌then◌else◌, Ok, Err, slice_index};
ghost use Rattle.vectors.specs.declared.faults.Fault.TheVariants.{Unusable};
ghost use Rattle.vectors.specs.Sets.{usable as is_usable};
ghost use Rattle.sink.specs.Meaning.{Empty};
ghost use Rattle.layers.specs.Renames.{renamed, RenamedDid};

use crate::table::Table;
use sink::{Aim, Placed, Ring, Sink};
use vectors::{Fault, UsableVector};

#[derive(Drop)]
pub struct Renaming<S> {
    below: S,
    table: Table,
}

impl<S: Sink> Renaming<S> {
    // On an empty sink it is an empty sink.
    pub fn new(below: S, table: Table) -> Renaming<S>
        ensures below { result.below ≡ below }
        ensures table { result.table ≡ table }
        ensures empty { Empty (S.Sink.meaning below) → Empty (renamed (S.Sink.meaning below) table.names) }
    {
        Renaming { below, table }
    }

    // The table's name for a vector; one that cannot be used is refused.
    fn table_name(&self, vector: u8) -> Result<u8, Fault>
        ensures { result ≡ (if is_usable vector then Ok (slice_index self.now.table.names vector) else Err Unusable) }
    {
        let vector = UsableVector::try_from(vector)?;
        Ok(self.table.name(vector.into()))
    }
}

// What passes down is written out: an impl of Sink for all layers is refused here, where Sink is another crate's.
impl<S: Sink> Sink for Renaming<S> {
    ghost meaning = { λ s. renamed (S.Sink.meaning s.below) s.table.names };

    ghost fixed = { λ s. s.table.names ∷ S.Sink.fixed s.below };

    ghost did = { λ s o t. RenamedDid S.Sink.did (s.table.names, s.below) o (t.table.names, t.below) };

    fn park(&mut self, vector: u8) -> Result<Placed, Fault> {
        let vector = self.table_name(vector)?;
        self.below.park(vector)
    }

    fn bell(&mut self, urgent: bool) -> Option<Ring> {
        self.below.bell(urgent)
    }

    fn ack(&mut self) {
        self.below.ack();
    }

    fn set_quiet(&mut self, quiet: bool) {
        self.below.set_quiet(quiet);
    }

    fn set_aim(&mut self, aim: Aim) {
        self.below.set_aim(aim);
    }

    fn draw(&mut self, group: u8) -> Result<u64, Fault> {
        self.below.draw(group)
    }

    fn look(&self, group: u8) -> Result<u64, Fault> {
        self.below.look(group)
    }

    fn is_rung(&self) -> bool {
        self.below.is_rung()
    }

    fn is_quiet(&self) -> bool {
        self.below.is_quiet()
    }

    fn aim(&self) -> Aim {
        self.below.aim()
    }

    fn name(&self, vector: u8) -> Result<u8, Fault> {
        self.below.name(self.table_name(vector)?)
    }

    fn freeze(&mut self) {
        self.below.freeze();
    }

    fn thaw(&mut self) {
        self.below.thaw();
    }
}
