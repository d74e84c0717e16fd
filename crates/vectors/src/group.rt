ghost use Rattle.std.specs.Prelude.{◌≡◌, ◌<◌, if◌then◌else◌, Ok, Err, nat_lt};
ghost use Rattle.vectors.specs.declared.faults.Fault.TheVariants.{NoGroup};
ghost use Rattle.vectors.specs.Sets.{group as group_of};

use super::faults::Fault;
use std::marker::Model;

// A group of vectors, 0 to 3: those of one word of a set. Contracts see its number.
#[derive(Clone, Copy, PartialEq, Eq, Debug)]
pub struct Group {
    number: u8,
}

impl Model for Group {
    ghost use Rattle.std.specs.Prelude.{ℕ, ◌<◌};

    ghost Value = { ℕ };

    ghost view = { λ g. g.number };

    ghost invariant = { λ g. g.number < 4 };

    ghost inverse = { λ n. record { number = n } };
}

impl Group {
    // The group of a vector.
    pub fn of(vector: u8) -> Group
        ensures { result ≡ group_of vector }
    {
        Group {
            number: vector / 64,
        }
    }

    // The place of its word among the four of a set.
    pub fn index(self) -> usize
        ensures value { result ≡ self }
        ensures within { result < 4 }
    {
        self.number as usize
    }
}

// A number above 3 is refused.
impl TryFrom<u8> for Group {
    type Error = Fault;

    ghost try_from_gives = { λ number r. r ≡ (if nat_lt number 4 then Ok number else Err NoGroup) };

    fn try_from(number: u8) -> Result<Group, Fault> {
        if number < 4 {
            Ok(Group { number })
        } else {
            Err(Fault::NoGroup)
        }
    }
}
