// An entry in its 16 bytes.
ghost use Rattle.std.specs.Prelude.{◌≡◌, true, IfOk, Ok, OnOk};
ghost use Rattle.packed.specs.Packed.{bytes_of};
ghost use Rattle.entry.specs.Layout.{bits_in, raw_in, reads_bytes, writable, writes_into, layout_of, written};

use crate::faults::Fault;
use crate::format::Entry;
use crate::raw::RawEntry;

// How many bytes an entry has.
pub const SIZE: usize = 16;

// The bits in 16 bytes, the lowest byte first, and the bytes again.
impl From<&[u8; SIZE]> for RawEntry {
    ghost from_gives = { λ bytes raw. (raw.bits ≡ bits_in bytes.now) × (bytes_of 16 raw.bits ≡ bytes.now) };

    fn from(bytes: &[u8; SIZE]) -> RawEntry {
        RawEntry {
            bits: u128::from_le_bytes(*bytes),
        }
    }
}

impl From<RawEntry> for [u8; SIZE] {
    ghost from_gives = { λ raw bytes. (bytes ≡ bytes_of 16 raw.bits) × (bits_in bytes ≡ raw.bits) };

    fn from(raw: RawEntry) -> [u8; SIZE] {
        raw.bits.to_le_bytes()
    }
}

impl TryFrom<&[u8]> for RawEntry {
    type Error = Fault;

    ghost try_from_gives = { λ bytes result. (result ≡ raw_in bytes.now) × IfOk result (λ raw. bytes_of 16 raw.bits ≡ bytes.now) };

    fn try_from(bytes: &[u8]) -> Result<RawEntry, Fault> {
        let sixteen = <&[u8; SIZE]>::try_from(bytes).map_err(|_| Fault::Length)?;
        Ok(RawEntry::from(sixteen))
    }
}

// The entry that lies in the bytes. Writing it gives the bytes again.
impl TryFrom<&[u8]> for Entry {
    type Error = Fault;

    ghost try_from_gives = { λ bytes result. (result ≡ reads_bytes bytes.now) × IfOk result (λ e. (writable e ≡ true) × (layout_of e ≡ bytes.now)) };

    fn try_from(bytes: &[u8]) -> Result<Entry, Fault> {
        Entry::try_from(RawEntry::try_from(bytes)?)
    }
}

// Crates `descriptor` and `polled` have the same function over their layouts: a trait for the three would only list it.
impl Entry {
    // Writes the entry. Bytes of another length and an entry that no reader gives are refused, and the bytes left as they
    // are. Reading what was written gives the entry again.
    pub fn write_to(&self, bytes: &mut [u8]) -> Result<(), Fault>
        ensures answer { result ≡ writes_into self.now bytes.old }
        ensures after { bytes.new ≡ written self.now bytes.old }
        ensures back { OnOk result (reads_bytes bytes.new ≡ Ok self.now) }
    {
        let sixteen = bytes.as_mut_array().ok_or(Fault::Length)?;
        *sixteen = <[u8; SIZE]>::from(RawEntry::try_from(self)?);
        Ok(())
    }
}
