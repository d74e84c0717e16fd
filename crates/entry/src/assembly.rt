// The bits of an entry.
ghost use Rattle.std.specs.Prelude.{◌≡◌, ◌+◌, ◌*◌, ◌^◌, ◌<◌, true, IfOk, Ok};
ghost use mir.Val.{bool_byte};
ghost use Rattle.entry.specs.Layout.{reads, writable, writes, bits_of};

use crate::bits::field;
use crate::faults::Fault;
use crate::format::{Entry, Target};
use crate::raw::RawEntry;

// The bits of the entry. Reading them gives the entry again.
impl TryFrom<&Entry> for RawEntry {
    type Error = Fault;

    ghost try_from_gives = { λ entry result. (result ≡ writes entry.now) × IfOk result (λ raw. reads raw.bits ≡ Ok entry.now) };

    fn try_from(entry: &Entry) -> Result<RawEntry, Fault> {
        if !entry.is_writable() {
            return Err(Fault::Unlawful);
        }
        Ok(RawEntry {
            bits: entry.assembled(),
        })
    }
}

impl Entry {
    // Whether each field has room in its place and holds what a reader gives.
    fn is_writable(&self) -> bool
        ensures { result ≡ writable self.now }
    {
        if self.free >= 16 || self.sq >= 4 || self.svt >= 3 {
            return false;
        }
        match self.target {
            Target::Host {
                delivery,
                destination,
                ..
            } => delivery < 2 && destination < 256,
            Target::Posted { address, .. } => address % 64 == 0,
        }
    }

    // Each field at its place, side by side.
    fn assembled(&self) -> u128
        ensures value { result ≡ bits_of self.now }
        ensures back { writable self.now ≡ true → reads result ≡ Ok self.now }
    {
        match self.target {
            Target::Host {
                logical,
                hint,
                level,
                delivery,
                destination,
            } => {
                let flags = ((logical as u128) << 2)
                    + ((hint as u128) << 3)
                    + ((level as u128) << 4);
                let modes = flags + ((delivery as u128) << 5);
                self.common() + modes + ((destination as u128) << 40)
            }
            Target::Posted { urgent, address } => {
                let modes = ((urgent as u128) << 14) + (1 << 15);
                let low = field(address as u128, 31, 6) << 38;
                let high = field(address as u128, 63, 32) << 96;
                self.common() + modes + low + high
            }
        }
    }

    // The fields that both kinds have.
    fn common(&self) -> u128
        ensures value { result ≡ bool_byte self.now.present + bool_byte self.now.fpd * 2 + self.now.free * 2 ^ 8 + self.now.vector * 2 ^ 16 + (self.now.sid + self.now.sq * 2 ^ 16 + self.now.svt * 2 ^ 18) * 2 ^ 64 }
        ensures bound { result < 2 ^ 91 }
        ensures narrow { (self.now.vector < 2 ^ 8) × (self.now.sid < 2 ^ 16) }
    {
        let flags = self.present as u128 + ((self.fpd as u128) << 1);
        let low = flags + ((self.free as u128) << 8) + ((self.vector as u128) << 16);
        let source = self.sid as u128 + ((self.sq as u128) << 16) + ((self.svt as u128) << 18);
        low + (source << 64)
    }
}
