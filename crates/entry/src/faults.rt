ghost use Rattle.std.specs.Prelude.{◌≡◌};
ghost use Rattle.entry.specs.Numbers.{number as number_of};

// What is refused of an entry.
#[derive(Clone, Copy, PartialEq, Eq, Debug)]
pub enum Fault {
    // other than 16 bytes
    Length,
    // a reserved bit, SVT 3, a delivery mode other than 0 and 1, or a field that has no room in its place
    Unlawful,
}

// The number by which reports name the refusal.
impl From<Fault> for u8 {
    ghost from_gives = { λ fault n. n ≡ number_of fault };

    fn from(fault: Fault) -> u8 {
        match fault {
            Fault::Length => 0x0E,
            Fault::Unlawful => 0x24,
        }
    }
}
