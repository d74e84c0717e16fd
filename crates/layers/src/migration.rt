// A layer that keeps what is posted while it is frozen.
ghost use Rattle.std.specs.Prelude.{◌≡◌};
ghost use Rattle.sink.specs.Meaning.{Empty};
ghost use Rattle.layers.specs.Holding.{own_of, fresh, migrated, MigratedDid};

use crate::held::Held;
use sink::{Aim, Marks, Placed, Ring, Route, Sink};
use vectors::{Fault, VectorSet};

#[derive(Drop)]
pub struct Migration<S> {
    below: S,
    held: Held,
}

impl<S: Sink> Migration<S> {
    // It begins thawed, its set empty and its mark clear; on an empty sink it is an empty sink.
    pub fn new(below: S) -> Migration<S>
        ensures below { result.below ≡ below }
        ensures own { own_of result.held ≡ fresh }
        ensures empty { Empty (S.Sink.meaning below) → Empty (migrated (S.Sink.meaning below) fresh) }
    {
        Migration {
            below,
            held: Held {
                frozen: false,
                set: VectorSet::empty(),
                rung: false,
            },
        }
    }
}

// What passes down is written out: an impl of Sink for all layers is refused here, where Sink is another crate's.
impl<S: Sink> Sink for Migration<S> {
    ghost meaning = { λ s. migrated (S.Sink.meaning s.below) (own_of s.held) };

    ghost fixed = { λ s. S.Sink.fixed s.below };

    ghost did = { λ s o t. MigratedDid S.Sink.did (own_of s.held, s.below) o (own_of t.held, t.below) };

    fn park(&mut self, vector: u8) -> Result<Placed, Fault> {
        if !self.held.frozen {
            return self.below.park(vector);
        }
        let vector = self.below.name(vector)?;
        self.held.set.insert(vector);
        Ok(Placed {
            vector,
            route: Route::Parked,
        })
    }

    fn bell(&mut self, urgent: bool) -> Option<Ring> {
        if self.held.rung {
            return None;
        }
        if !self.held.frozen {
            return self.below.bell(urgent);
        }
        let below = Marks {
            rung: self.below.is_rung(),
            quiet: self.below.is_quiet(),
            aim: self.below.aim(),
        };
        let ring = below.ring(urgent)?;
        self.held.rung = true;
        Some(ring)
    }

    fn ack(&mut self) {
        self.held.rung = false;
        self.below.ack();
    }

    fn set_quiet(&mut self, quiet: bool) {
        self.below.set_quiet(quiet);
    }

    fn set_aim(&mut self, aim: Aim) {
        self.below.set_aim(aim);
    }

    #[tactic(auto, using(crate::proofs::Layering::join_usable))]
    fn draw(&mut self, group: u8) -> Result<u64, Fault> {
        let below = self.below.draw(group)?;
        let own = self.held.set.draw(group)?;
        Ok(own | below)
    }

    #[tactic(auto, using(crate::proofs::Layering::join_usable))]
    fn look(&self, group: u8) -> Result<u64, Fault> {
        Ok(self.held.set.word(group)? | self.below.look(group)?)
    }

    fn is_rung(&self) -> bool {
        self.below.is_rung() || self.held.rung
    }

    fn is_quiet(&self) -> bool {
        self.below.is_quiet()
    }

    fn aim(&self) -> Aim {
        self.below.aim()
    }

    fn name(&self, vector: u8) -> Result<u8, Fault> {
        self.below.name(vector)
    }

    fn freeze(&mut self) {
        self.held.frozen = true;
        self.below.freeze();
    }

    fn thaw(&mut self) {
        self.held.frozen = false;
        self.below.thaw();
    }
}
