// The one interface that every sink stands behind.
ghost use Rattle.std.specs.Prelude.{◌≡◌, ℕ, Bool, true, false, List, [], ◌∷◌, IfOk, is_some, if◌then◌else◌, Some, None};
ghost use Rattle.vectors.specs.Sets.{usable as is_usable, usable_word};
ghost use Rattle.sink.specs.Meaning.{Meaning, Sound, with_rung, with_quiet, with_aim, route_of, parks, after_park, rings, after_bell, draws, after_draw, names, hears};
ghost use Rattle.sink.specs.Ops.{Op, park as parked, bell as belled, ack as acked, set_quiet, set_aim, draw as drawn, freeze as frozen, thaw as thawed};

use vectors::Fault;

// What a ring sends: a notification to a running guest, or a wake-up to a sleeping one.
#[derive(Clone, Copy, PartialEq, Eq, Debug)]
pub enum Aim {
    Notification,
    Wake,
}

// Where a posted vector went: it waits in the sink, or goes through to the requests at once.
#[derive(Clone, Copy, PartialEq, Eq, Debug)]
pub enum Route {
    Parked,
    Through,
}

// A posted vector under the sink's name for it, and where it went.
#[derive(Clone, Copy, PartialEq, Eq, Debug)]
pub struct Placed {
    pub vector: u8,
    pub route: Route,
}

// A bell that rang, and what it sends.
#[derive(Clone, Copy, PartialEq, Eq, Debug)]
pub struct Ring {
    pub aim: Aim,
}

// What a sink is set to: a bell has rung and was not acknowledged, only urgent bells ring, and what a ring sends.
#[derive(Clone, Copy, PartialEq, Eq, Debug)]
pub struct Marks {
    pub rung: bool,
    pub quiet: bool,
    pub aim: Aim,
}

impl Marks {
    // The ring of a bell, if it rings.
    pub fn ring(self, urgent: bool) -> Option<Ring>
        ensures value { result ≡ (if hears self urgent then Some (record { aim = self.aim }) else None) }
        ensures heard { is_some result ≡ hears self urgent }
    {
        let rings = !self.rung && (urgent || !self.quiet);
        rings.then_some(Ring { aim: self.aim })
    }
}

pub trait Sink {
    // What the sink means.
    ghost meaning: { Self → Meaning };

    // What no call changes: the ghost names of the references that it holds, and tables. Each clause repeats it, since a fact
    // of the value before and the value after a call can't stand in a type.
    ghost fixed: { Self → List (List ℕ) };

    // What an operation with its answer did: the state before and after.
    ghost did: { Self → Op → Self → Type 0 };

    // Posts a vector.
    fn park(&mut self, vector: u8) -> Result<Placed, Fault>
        ensures answer { result ≡ parks (meaning self.old) vector (route_of result) }
        ensures after { meaning self.new ≡ after_park (meaning self.old) vector (route_of result) }
        ensures usable { IfOk result (λ p. is_usable p.vector ≡ true) }
        ensures fixed { fixed self.new ≡ fixed self.old }
        ensures did { did self.old (parked vector result) self.new };

    // Announces what was posted.
    fn bell(&mut self, urgent: bool) -> Option<Ring>
        ensures answer { result ≡ rings (meaning self.old) urgent }
        ensures after { meaning self.new ≡ after_bell (meaning self.old) urgent }
        ensures fixed { fixed self.new ≡ fixed self.old }
        ensures did { did self.old (belled urgent result) self.new };

    // Acknowledges a ring.
    fn ack(&mut self)
        ensures after { meaning self.new ≡ with_rung (meaning self.old) false }
        ensures fixed { fixed self.new ≡ fixed self.old }
        ensures did { did self.old acked self.new };

    fn set_quiet(&mut self, quiet: bool)
        ensures after { meaning self.new ≡ with_quiet (meaning self.old) quiet }
        ensures fixed { fixed self.new ≡ fixed self.old }
        ensures did { did self.old (set_quiet quiet) self.new };

    fn set_aim(&mut self, aim: Aim)
        ensures after { meaning self.new ≡ with_aim (meaning self.old) aim }
        ensures fixed { fixed self.new ≡ fixed self.old }
        ensures did { did self.old (set_aim aim) self.new };

    // The parked vectors of a group, which leave the sink.
    fn draw(&mut self, group: u8) -> Result<u64, Fault>
        ensures answer { result ≡ draws (meaning self.old) group }
        ensures after { meaning self.new ≡ after_draw (meaning self.old) group }
        ensures usable { IfOk result (λ w. usable_word group w ≡ true) }
        ensures fixed { fixed self.new ≡ fixed self.old }
        ensures did { did self.old (drawn group result) self.new };

    // The parked vectors of a group, which stay.
    fn look(&self, group: u8) -> Result<u64, Fault>
        ensures answer { result ≡ draws (meaning self.now) group }
        ensures usable { IfOk result (λ w. usable_word group w ≡ true) };

    // Also that the sink is sound. As a law of the trait its proof could name only specs/, and would have to stand there.
    fn is_rung(&self) -> bool
        ensures value { result ≡ (meaning self.now).rung }
        ensures sound { Sound (meaning self.now) };

    fn is_quiet(&self) -> bool
        ensures { result ≡ (meaning self.now).quiet };

    fn aim(&self) -> Aim
        ensures { result ≡ (meaning self.now).aim };

    // The sink's name for a vector.
    fn name(&self, vector: u8) -> Result<u8, Fault>
        ensures answer { result ≡ names (meaning self.now) vector }
        ensures usable { IfOk result (λ w. is_usable w ≡ true) };

    fn freeze(&mut self)
        ensures after { meaning self.new ≡ meaning self.old }
        ensures fixed { fixed self.new ≡ fixed self.old }
        ensures did { did self.old frozen self.new };

    fn thaw(&mut self)
        ensures after { meaning self.new ≡ meaning self.old }
        ensures fixed { fixed self.new ≡ fixed self.old }
        ensures did { did self.old thawed self.new };
}

// A sink that is lent is a sink. Each method stands by hand, since a macro of the repository may write no impl.
impl<S: Sink> Sink for &mut S {
    ghost meaning = { λ s. S.Sink.meaning s.now };

    ghost fixed = { λ s. (s.ghost_name ∷ []) ∷ S.Sink.fixed s.now };

    ghost did = { λ s o t. S.Sink.did s.now o t.now };

    fn park(&mut self, vector: u8) -> Result<Placed, Fault> {
        (**self).park(vector)
    }

    fn bell(&mut self, urgent: bool) -> Option<Ring> {
        (**self).bell(urgent)
    }

    fn ack(&mut self) {
        (**self).ack();
    }

    fn set_quiet(&mut self, quiet: bool) {
        (**self).set_quiet(quiet);
    }

    fn set_aim(&mut self, aim: Aim) {
        (**self).set_aim(aim);
    }

    fn draw(&mut self, group: u8) -> Result<u64, Fault> {
        (**self).draw(group)
    }

    fn look(&self, group: u8) -> Result<u64, Fault> {
        (**self).look(group)
    }

    fn is_rung(&self) -> bool {
        (**self).is_rung()
    }

    fn is_quiet(&self) -> bool {
        (**self).is_quiet()
    }

    fn aim(&self) -> Aim {
        (**self).aim()
    }

    fn name(&self, vector: u8) -> Result<u8, Fault> {
        (**self).name(vector)
    }

    fn freeze(&mut self) {
        (**self).freeze();
    }

    fn thaw(&mut self) {
        (**self).thaw();
    }
}
