ghost use Rattle.std.specs.Prelude.{◌≡◌};
ghost use Rattle.vectors.specs.Numbers.{number as number_of};

// What is refused of a vector or of a group.
#[derive(Clone, Copy, PartialEq, Eq, Debug)]
pub enum Fault {
    // a vector below 10h
    Unusable,
    // a group above 3
    NoGroup,
}

// The number by which reports name the refusal. Each crate writes such an impl, since a macro of the repository may write none.
impl From<Fault> for u8 {
    ghost from_gives = { λ fault n. n ≡ number_of fault };

    fn from(fault: Fault) -> u8 {
        match fault {
            Fault::Unusable => 0x12,
            Fault::NoGroup => 0x15,
        }
    }
}
