ghost use Rattle.std.specs.Prelude.{◌≡◌, [], ◌∷◌, Result as ResultOf};
ghost use Rattle.vectors.specs.declared.faults.Fault.{Fault as Refusal};
ghost use Rattle.sink.specs.declared.face.Aim.TheVariants.{Wake};
ghost use Rattle.sink.specs.declared.face.Placed.{Placed as PlacedOf};
ghost use Rattle.sink.specs.Ops.{park as parked, set_aim};

use crate::contents::Contents;
use crate::opening::{prepare, with_page};
use sink::{Aim, Sink, Visit};
use std::test::Fail;

// Posts a vector, then aims at wake-ups.
#[derive(Drop)]
struct Poster {
    vector: u8,
}

impl Visit for Poster {
    type Out = ();

    ghost did = { λ s _ os _ _ _. (r : ResultOf PlacedOf Refusal) × (os ≡ parked s.vector r ∷ set_aim Wake ∷ []) };

    fn visit<S: Sink>(&mut self, sink: &mut S) {
        let _ = sink.park(self.vector);
        sink.set_aim(Aim::Wake);
    }
}

#[test]
fn prepared_then_visited(rt: HostRuntime) -> Result<(), Fail> {
    let mut bytes = [9; 257];
    prepare(&mut bytes)?;
    assert_eq!(rt; bytes, [0; 257]);
    with_page(&mut bytes, &mut Poster { vector: 0x41 })?;
    assert_eq!(rt; bytes[0x41], 1);
    assert_eq!(rt; bytes[256], 4);
    let mut copy = [9; 257];
    Contents::try_from(bytes.as_slice())?.write_to(&mut copy)?;
    assert_eq!(rt; copy, bytes);
    Ok(())
}

#[test]
fn refused(rt: HostRuntime) {
    let mut short = [0; 256];
    assert!(rt; prepare(&mut short).is_err());
    let mut bad = [0; 257];
    bad[0x41] = 2;
    assert!(rt; with_page(&mut bad, &mut Poster { vector: 0x42 }).is_err());
    assert_eq!(rt; bad[0x42], 0);
}
