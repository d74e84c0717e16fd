// The refusal of a queue.
ghost use Rattle.std.specs.Prelude.{◌≡◌};

// No slot is free.
#[derive(Clone, Copy, PartialEq, Eq, Debug)]
pub struct Full;

// The number by which reports name the refusal.
impl From<Full> for u8 {
    ghost from_gives = { λ _ n. n ≡ 0x0F };

    fn from(_: Full) -> u8 {
        0x0F
    }
}
