ghost use Rattle.std.specs.Prelude.{◌≡◌, [], ◌∷◌};
ghost use Rattle.sink.specs.Ops.{set_aim, park as parked};

use super::*;
use sink::{Aim, Placed, Sink, Visit};
use std::test::Fail;

// A visitor that aims and then posts.
#[derive(Drop)]
struct Post {
    aim: Aim,
    vector: u8,
}

impl Visit for Post {
    type Out = Result<Placed, vectors::Fault>;

    ghost did = { λ s m os r t n. (t ≡ s) × (os ≡ set_aim s.aim ∷ parked s.vector r ∷ []) };

    fn visit<S: Sink>(&mut self, sink: &mut S) -> Result<Placed, vectors::Fault> {
        sink.set_aim(self.aim);
        sink.park(self.vector)
    }
}

#[test]
fn a_prepared_descriptor_is_empty(rt: HostRuntime) -> Result<(), Fail> {
    let mut bytes = [7; 64];
    prepare(&mut bytes)?;
    let mut empty = [0; 64];
    empty[34] = 0xF2;
    assert!(rt; bytes == empty);
    Ok(())
}

#[test]
fn a_visit_changes_the_bytes(rt: HostRuntime) -> Result<(), Fail> {
    let mut bytes = [0; 64];
    prepare(&mut bytes)?;
    let mut post = Post {
        aim: Aim::Wake,
        vector: 0x41,
    };
    assert!(rt; with_descriptor(&mut bytes, &mut post)?.is_ok());
    assert_eq!(rt; bytes[8], 2);
    assert_eq!(rt; bytes[34], 0xF1);
    post.aim = Aim::Notification;
    assert!(rt; with_descriptor(&mut bytes, &mut post)?.is_ok());
    assert_eq!(rt; bytes[34], 0xF2);
    Ok(())
}

#[test]
fn bad_bytes_are_refused(rt: HostRuntime) -> Result<(), Fail> {
    assert!(rt; Contents::try_from([0; 63].as_slice()).is_err());
    let read = Contents::try_from([0; 64].as_slice());
    assert_eq!(rt; read.map_err(u8::from), Err(0x0C));
    Ok(())
}
