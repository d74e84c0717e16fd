// The bottom that parks nothing: every post goes through.
ghost use Rattle.std.specs.Prelude.{◌≡◌, []};
ghost use Rattle.sink.specs.Bottom.{direct as meant, DirectDid};
ghost use Rattle.sink.specs.Meaning.{empty_sink};

use crate::face::{Aim, Marks, Placed, Ring, Route, Sink};
use vectors::{Fault, Group, UsableVector};

// No `store::Store`: it has no bytes, and no vectors to note.
#[derive(Clone, Copy, PartialEq, Eq, Debug)]
pub struct Direct {
    marks: Marks,
}

impl Direct {
    // An empty sink.
    pub fn new() -> Direct
        ensures { meant result ≡ empty_sink (λ v. v) }
    {
        Direct {
            marks: Marks {
                rung: false,
                quiet: false,
                aim: Aim::Notification,
            },
        }
    }
}

impl Sink for Direct {
    ghost meaning = { meant };

    ghost fixed = { λ _. [] };

    ghost did = { DirectDid };

    fn park(&mut self, vector: u8) -> Result<Placed, Fault> {
        Ok(Placed {
            vector: (*self).name(vector)?,
            route: Route::Through,
        })
    }

    fn bell(&mut self, urgent: bool) -> Option<Ring> {
        let ring = self.marks.ring(urgent)?;
        self.marks.rung = true;
        Some(ring)
    }

    fn ack(&mut self) {
        self.marks.rung = false;
    }

    fn set_quiet(&mut self, quiet: bool) {
        self.marks.quiet = quiet;
    }

    fn set_aim(&mut self, aim: Aim) {
        self.marks.aim = aim;
    }

    fn draw(&mut self, group: u8) -> Result<u64, Fault> {
        (*self).look(group)
    }

    fn look(&self, group: u8) -> Result<u64, Fault> {
        Group::try_from(group)?;
        Ok(0)
    }

    fn is_rung(&self) -> bool {
        self.marks.rung
    }

    fn is_quiet(&self) -> bool {
        self.marks.quiet
    }

    fn aim(&self) -> Aim {
        self.marks.aim
    }

    fn name(&self, vector: u8) -> Result<u8, Fault> {
        Ok(UsableVector::try_from(vector)?.into())
    }

    fn freeze(&mut self) {}

    fn thaw(&mut self) {}
}
