ghost use Rattle.std.specs.Prelude.{◌≡◌};
ghost use Rattle.descriptor.specs.Numbers.{number as number_of};

// What is refused of bytes that are lent as a descriptor.
#[derive(Clone, Copy, PartialEq, Eq, Debug)]
pub enum Fault {
    // not 64 bytes
    Length,
    // no descriptor
    Contents,
}

// The number by which reports name the refusal.
impl From<Fault> for u8 {
    ghost from_gives = { λ fault n. n ≡ number_of fault };

    fn from(fault: Fault) -> u8 {
        match fault {
            Fault::Length => 0x0B,
            Fault::Contents => 0x0C,
        }
    }
}
