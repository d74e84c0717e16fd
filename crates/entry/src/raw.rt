// An entry's 128 bits, and the entry that they are.
ghost use Rattle.std.specs.Prelude.{◌≡◌, ◌+◌, ◌*◌, ◌^◌, true, IfOk};
ghost use Rattle.packed.specs.Packed.{is_set};
ghost use Rattle.entry.specs.Layout.{lawful_host, lawful_posted, lawful, host_of, posted_of, entry_of, reads, WrittenAs};

use crate::bits::{field, is_set, is_zero};
use crate::faults::Fault;
use crate::format::{Entry, Target};

// The bits of an entry, whatever they hold.
#[derive(Clone, Copy, PartialEq, Eq, Debug)]
pub struct RawEntry {
    pub bits: u128,
}

// The entry that the bits are. Writing it gives the bits again.
impl TryFrom<RawEntry> for Entry {
    type Error = Fault;

    ghost try_from_gives = { λ raw result. (result ≡ reads raw.bits) × IfOk result (λ e. WrittenAs e raw.bits) };

    fn try_from(raw: RawEntry) -> Result<Entry, Fault> {
        if !raw.is_lawful() {
            return Err(Fault::Unlawful);
        }
        Ok(raw.entry())
    }
}

impl RawEntry {
    // By its halves: bits 63-0 and bits 127-64.
    // No `From` of a pair, which would not say which half comes first.
    pub fn from_halves(low: u64, high: u64) -> RawEntry
        ensures { result.bits ≡ low + high * 2 ^ 64 }
    {
        RawEntry {
            bits: low as u128 + ((high as u128) << 64),
        }
    }

    // Whether the entry may be used at all; answered whatever the other bits hold.
    pub fn is_present(self) -> bool
        ensures { result ≡ is_set 0 self.bits }
    {
        is_set(self.bits, 0)
    }

    // Whether fault processing is disabled; answered whatever the other bits hold.
    pub fn is_fpd(self) -> bool
        ensures { result ≡ is_set 1 self.bits }
    {
        is_set(self.bits, 1)
    }

    fn is_posted(self) -> bool
        ensures { result ≡ is_set 15 self.bits }
    {
        is_set(self.bits, 15)
    }

    fn is_lawful(self) -> bool
        ensures { result ≡ lawful self.bits }
    {
        if field(self.bits, 83, 82) >= 3 {
            return false;
        }
        if self.is_posted() {
            self.is_posted_lawful()
        } else {
            self.is_host_lawful()
        }
    }

    fn is_host_lawful(self) -> bool
        ensures { result ≡ lawful_host self.bits }
    {
        is_zero(self.bits, 14, 12)
            && is_zero(self.bits, 31, 24)
            && is_zero(self.bits, 39, 32)
            && is_zero(self.bits, 63, 48)
            && is_zero(self.bits, 127, 84)
            && field(self.bits, 7, 5) < 2
    }

    fn is_posted_lawful(self) -> bool
        ensures { result ≡ lawful_posted self.bits }
    {
        is_zero(self.bits, 7, 2)
            && is_zero(self.bits, 13, 12)
            && is_zero(self.bits, 31, 24)
            && is_zero(self.bits, 37, 32)
            && is_zero(self.bits, 95, 84)
    }

    // The fields, whatever they hold.
    fn entry(self) -> Entry
        ensures { result ≡ entry_of self.bits }
    {
        Entry {
            present: self.is_present(),
            fpd: self.is_fpd(),
            free: field(self.bits, 11, 8) as u8,
            vector: field(self.bits, 23, 16) as u8,
            sid: field(self.bits, 79, 64) as u16,
            sq: field(self.bits, 81, 80) as u8,
            svt: field(self.bits, 83, 82) as u8,
            target: if self.is_posted() {
                self.posted()
            } else {
                self.host()
            },
        }
    }

    fn host(self) -> Target
        ensures { result ≡ host_of self.bits }
    {
        Target::Host {
            logical: is_set(self.bits, 2),
            hint: is_set(self.bits, 3),
            level: is_set(self.bits, 4),
            delivery: field(self.bits, 7, 5) as u8,
            destination: field(self.bits, 47, 40) as u32,
        }
    }

    fn posted(self) -> Target
        ensures { result ≡ posted_of self.bits }
    {
        let low = field(self.bits, 63, 38) as u64;
        let high = field(self.bits, 127, 96) as u64;
        Target::Posted {
            urgent: is_set(self.bits, 14),
            address: (low << 6) + (high << 32),
        }
    }
}
