// Visitors that post.
ghost use Rattle.std.specs.Prelude.{◌≡◌};
ghost use Rattle.piles.specs.Asked.{Posted, FrozenFirst};

use sink::{Placed, Sink, Visit};
use vectors::Fault;

// Posts a vector.
#[derive(Drop)]
pub struct Post {
    pub vector: u8,
}

impl Visit for Post {
    type Out = Result<Placed, Fault>;

    ghost did = { λ s m os r t n. (t ≡ s) × Posted s.vector os r };

    #[tactic(auto, using(sink::proofs::Chains::chain_one))]
    fn visit<S: Sink>(&mut self, sink: &mut S) -> Result<Placed, Fault> {
        sink.park(self.vector)
    }
}

// Freezes the sink, then posts a vector.
// Not a freeze before any visitor: that would need a relation over each visitor's own, for the one line that the two share.
#[derive(Drop)]
pub struct FrozenPost {
    pub vector: u8,
}

impl Visit for FrozenPost {
    type Out = Result<Placed, Fault>;

    ghost did = { λ s m os r t n. (t ≡ s) × FrozenFirst s.vector os r };

    fn visit<S: Sink>(&mut self, sink: &mut S) -> Result<Placed, Fault> {
        sink.freeze();
        sink.park(self.vector)
    }
}
