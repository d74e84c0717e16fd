// The sink over a store, and visits to it.
ghost use Rattle.std.specs.Prelude.{◌≡◌, List, ◌∷◌, []};
ghost use Rattle.sink.specs.Ops.{Op, Chain};
ghost use Rattle.store.specs.Forms.{means, StoreDid};

use crate::store::Store;
use sink::{Aim, Placed, Ring, Route, Sink, Visit};
use vectors::{Fault, Group, UsableVector};

// The sink that lies in a store.
#[derive(Drop)]
pub struct Stored<'s, S> {
    store: &'s mut S,
}

impl<S: Store> Sink for Stored<'_, S> {
    ghost meaning = { λ s. means S.Store.form (S.Store.bytes s.store.now) };

    ghost fixed = { λ s. (s.store.ghost_name ∷ []) ∷ S.Store.fixed s.store.now };

    ghost did = { λ s o t. StoreDid S.Store.form (S.Store.bytes s.store.now) o (S.Store.bytes t.store.now) };

    fn park(&mut self, vector: u8) -> Result<Placed, Fault> {
        self.store.note(UsableVector::try_from(vector)?);
        Ok(Placed {
            vector,
            route: Route::Parked,
        })
    }

    fn bell(&mut self, urgent: bool) -> Option<Ring> {
        let ring = self.store.marks().ring(urgent)?;
        self.store.set_rung(true);
        Some(ring)
    }

    fn ack(&mut self) {
        self.store.set_rung(false);
    }

    fn set_quiet(&mut self, quiet: bool) {
        self.store.set_quiet(quiet);
    }

    fn set_aim(&mut self, aim: Aim) {
        self.store.set_aim(aim);
    }

    fn draw(&mut self, group: u8) -> Result<u64, Fault> {
        let group = Group::try_from(group)?;
        let word = self.store.word(group);
        self.store.empty(group);
        Ok(word)
    }

    fn look(&self, group: u8) -> Result<u64, Fault> {
        Ok(self.store.word(Group::try_from(group)?))
    }

    fn is_rung(&self) -> bool {
        self.store.marks().rung
    }

    fn is_quiet(&self) -> bool {
        self.store.marks().quiet
    }

    fn aim(&self) -> Aim {
        self.store.marks().aim
    }

    fn name(&self, vector: u8) -> Result<u8, Fault> {
        Ok(UsableVector::try_from(vector)?.into())
    }

    fn freeze(&mut self) {}

    fn thaw(&mut self) {}
}

// Visits the sink that lies in a store.
pub fn visit_store<S: Store, V: Visit>(store: &mut S, visitor: &mut V) -> V::Out
    ensures did { (os : List Op) × V.Visit.did visitor.old (means S.Store.form (S.Store.bytes store.old)) os result visitor.new (means S.Store.form (S.Store.bytes store.new)) × Chain (StoreDid S.Store.form) (S.Store.bytes store.old) os (S.Store.bytes store.new) }
    ensures fixed { S.Store.fixed store.new ≡ S.Store.fixed store.old }
{
    let mut sink = Stored { store };
    visitor.visit(&mut sink)
}
