ghost use Rattle.std.specs.Prelude.{◌≡◌};
ghost use Rattle.polled.specs.Numbers.{number as number_of};

// What is refused of bytes.
#[derive(Clone, Copy, PartialEq, Eq, Debug)]
pub enum Fault {
    // bytes that are no page, or a value that no page holds
    NotAPage,
}

// The number by which reports name the refusal.
impl From<Fault> for u8 {
    ghost from_gives = { λ fault n. n ≡ number_of fault };

    fn from(fault: Fault) -> u8 {
        match fault {
            Fault::NotAPage => 0x0D,
        }
    }
}
