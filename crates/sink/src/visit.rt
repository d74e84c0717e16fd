ghost use Rattle.std.specs.Prelude.{◌≡◌, List};
ghost use Rattle.sink.specs.Meaning.{Meaning};
ghost use Rattle.sink.specs.Ops.{Op, Chain};

use crate::face::Sink;

// What is done to a sink, whichever it is. Bytes that are lent become a live sink only for the time of a visit.
pub trait Visit {
    type Out;

    // From the visitor and what the sink means, by some operations, to the answer, and both as they are left.
    ghost did: { Self → Meaning → List Op → Self.Out → Self → Meaning → Type 0 };

    fn visit<S: Sink>(&mut self, sink: &mut S) -> Self::Out
        ensures did { (os : List Op) × did self.old (S.Sink.meaning sink.old) os result self.new (S.Sink.meaning sink.new) × Chain S.Sink.did sink.old os sink.new }
        ensures fixed { S.Sink.fixed sink.new ≡ S.Sink.fixed sink.old };
}
