ghost use Rattle.std.specs.Prelude.{◌≡◌, true, if◌then◌else◌, Ok, Err};
ghost use Rattle.vectors.specs.declared.faults.Fault.TheVariants.{Unusable};
ghost use Rattle.vectors.specs.Sets.{class as class_of, usable as is_usable, part, usable_word, Usable};

use super::faults::Fault;
use std::marker::Model;

// The priority class of a vector, 0 to 15.
pub fn class(v: u8) -> u8
    ensures { result ≡ class_of v }
{
    v / 16
}

// Whether a vector can be used for interrupts: 10h to FFh can.
pub fn usable(v: u8) -> bool
    ensures { result ≡ is_usable v }
{
    v >= 16
}

// Whether the vectors that a word of a group stands for can all be used.
pub fn usable_word(group: u8, word: u64) -> bool
    ensures value { result ≡ usable_word group word }
    ensures law { result ≡ true → Usable (part group word) }
{
    group > 0 || word % 0x1_0000 == 0
}

// A vector that can be used for interrupts. Contracts see its number.
#[derive(Clone, Copy, PartialEq, Eq, Debug)]
pub struct UsableVector {
    number: u8,
}

impl Model for UsableVector {
    ghost use Rattle.std.specs.Prelude.{ℕ, ◌≡◌, true};
    ghost use Rattle.vectors.specs.Sets.{usable};

    ghost Value = { ℕ };

    ghost view = { λ v. v.number };

    ghost invariant = { λ v. usable v.number ≡ true };

    ghost inverse = { λ n. record { number = n } };
}

// A vector below 10h is refused.
impl TryFrom<u8> for UsableVector {
    type Error = Fault;

    ghost try_from_gives = { λ number r. r ≡ (if is_usable number then Ok number else Err Unusable) };

    fn try_from(number: u8) -> Result<UsableVector, Fault> {
        if usable(number) {
            Ok(UsableVector { number })
        } else {
            Err(Fault::Unusable)
        }
    }
}

impl From<UsableVector> for u8 {
    ghost from_gives = { λ vector number. (number ≡ vector) × (is_usable number ≡ true) };

    fn from(vector: UsableVector) -> u8 {
        vector.number
    }
}
