ghost use Rattle.std.specs.Prelude.{◌≡◌};
ghost use Rattle.remap.specs.declared.faults.Fault.TheVariants.{Unlawful};
ghost use Rattle.remap.specs.Numbers.{number as number_of};

// Why a message is refused, in the order in which the questions are asked.
#[derive(Clone, Copy, PartialEq, Eq, Debug)]
pub enum Fault {
    // the address is not FEEh in bits 31-20
    Address,
    // the message is not in remappable format
    Format,
    // data that has to be zero is not
    Data,
    // there is no entry at the index
    Index,
    // the entry is not present
    Absent,
    // the entry's bits are no entry
    Unlawful,
    // the entry is not for this source
    Source,
    // the entry's vector is below 10h
    Vector,
    // the entry posts into another descriptor
    Descriptor,
}

// A refused message: why, and the index to record, 0 if it has none. No `Option`: the number is what a fault record holds.
#[derive(Clone, Copy, PartialEq, Eq, Debug)]
pub struct Refusal {
    pub fault: Fault,
    pub index: u32,
}

// The number by which reports name the refusal.
impl From<Fault> for u8 {
    ghost from_gives = { λ fault n. n ≡ number_of fault };

    fn from(fault: Fault) -> u8 {
        match fault {
            Fault::Address => 0x31,
            Fault::Format => 0x25,
            Fault::Data => 0x20,
            Fault::Index => 0x21,
            Fault::Absent => 0x22,
            Fault::Unlawful => 0x24,
            Fault::Source => 0x26,
            Fault::Vector => 0x30,
            Fault::Descriptor => 0x27,
        }
    }
}

// Of an entry's bits, which is what this crate reads; their length is right there.
impl From<entry::Fault> for Fault {
    ghost from_gives = { λ _ fault. fault ≡ Unlawful };

    fn from(_fault: entry::Fault) -> Fault {
        Self::Unlawful
    }
}
