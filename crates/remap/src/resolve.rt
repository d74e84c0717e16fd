// Remapping entries, and what a message through them asks for.
ghost use Rattle.std.specs.Prelude.{◌≡◌, ◌%◌, ◌<◌, ◌≤◌, length, MatchOption, MatchResult, ◌≢◌};
ghost use Rattle.std.specs.Simd.{first_chunks};
ghost use Rattle.entry.specs.declared.faults.Fault.TheVariants.{Length};
ghost use Rattle.entry.specs.Layout.{entry_of};
ghost use Rattle.remap.specs.Questions.{asked, FirstNo};
ghost use Rattle.remap.specs.Resolution.{count, bits_at, resolved, entry_questions, bits_questions, index_questions, resolves, recorded, resolution};

use crate::faults::{Fault, Refusal};
use crate::message::Message;
use crate::source::passes;
use entry::{Entry, RawEntry, SIZE, Target};
use vectors::usable;

// What a message asks for: an interrupt of the host, or a post into this seat's descriptor.
#[derive(Clone, Copy, PartialEq, Eq, Debug)]
pub enum Resolved {
    Host { vector: u8, destination: u32 },
    Posted { vector: u8, urgent: bool },
}

// Between whom a message goes: the device that sends it, and the seat, by the address of its descriptor.
#[derive(Clone, Copy, PartialEq, Eq, Debug)]
pub struct Parties {
    pub source: u16,
    pub descriptor: u64,
}

// Remapping entries, 16 bytes each, one after another.
// Clauses name its bytes, since a type that is `Copy` and has a lifetime can have no model.
#[derive(Clone, Copy)]
pub struct Entries<'a> {
    bytes: &'a [u8],
}

// Bytes whose number is no multiple of 16 are refused.
impl<'a> TryFrom<&'a [u8]> for Entries<'a> {
    type Error = entry::Fault;

    ghost try_from_gives = { λ bytes result. MatchResult result (λ t. (length bytes.now % 16 ≡ 0) × (t.bytes.now ≡ bytes.now)) (λ f. (length bytes.now % 16 ≢ 0) × (f ≡ Length)) };

    fn try_from(bytes: &'a [u8]) -> Result<Entries<'a>, entry::Fault> {
        if bytes.len() % SIZE != 0 {
            return Err(entry::Fault::Length);
        }
        Ok(Entries { bytes })
    }
}

impl<'a> Entries<'a> {
    // How many entries there are.
    pub fn len(&self) -> usize
        ensures { result ≡ count self.now.bytes.now }
    {
        self.entries().len()
    }

    // What an index asks for.
    pub fn resolve(&self, parties: Parties, index: u32) -> Result<Resolved, Refusal>
        ensures value { result ≡ recorded index (resolves self.now.bytes.now parties.descriptor parties.source index) }
        ensures law { FirstNo (index_questions self.now.bytes.now parties.descriptor parties.source index) (resolves self.now.bytes.now parties.descriptor parties.source index) }
    {
        self.judge(parties, index)
            .map_err(|fault| Refusal { fault, index })
    }

    // What a message asks for. Where it has no index, 0 is the index to record.
    pub fn resolve_message(&self, parties: Parties, message: Message) -> Result<Resolved, Refusal>
        ensures { result ≡ resolution self.now.bytes.now parties.descriptor parties.source message }
    {
        let index = message
            .index()
            .map_err(|fault| Refusal { fault, index: 0 })?;
        self.resolve(parties, index)
    }

    // The 16 bytes of each entry.
    fn entries(&self) -> &'a [[u8; SIZE]]
        ensures count { length result.now ≡ count self.now.bytes.now }
        ensures value { result.now ≡ first_chunks 16 (count self.now.bytes.now) self.now.bytes.now }
    {
        self.bytes.as_chunks().0
    }

    // The bits of the entry at an index.
    #[tactic(auto, using(packed::proofs::Chunks::chunk_at))]
    fn at(&self, index: u32) -> Option<RawEntry>
        ensures { MatchOption result (count self.now.bytes.now ≤ index) (λ raw. (index < count self.now.bytes.now) × (raw.bits ≡ bits_at self.now.bytes.now index)) }
    {
        let bytes = self.entries().get(index as usize)?;
        Some(RawEntry::from(bytes))
    }

    // The questions of an index, the first no of which refuses.
    fn judge(&self, parties: Parties, index: u32) -> Result<Resolved, Fault>
        ensures { result ≡ resolves self.now.bytes.now parties.descriptor parties.source index }
    {
        let raw = self.at(index).ok_or(Fault::Index)?;
        judge_bits(raw, parties)
    }
}

// The questions of an entry's bits.
fn judge_bits(raw: RawEntry, parties: Parties) -> Result<Resolved, Fault>
    ensures { result ≡ asked (bits_questions parties.descriptor parties.source raw.bits) (resolved (entry_of raw.bits)) }
{
    if !raw.is_present() {
        return Err(Fault::Absent);
    }
    let entry = Entry::try_from(raw)?;
    judge_entry(&entry, parties)
}

// The questions of an entry.
fn judge_entry(entry: &Entry, parties: Parties) -> Result<Resolved, Fault>
    ensures { result ≡ asked (entry_questions parties.descriptor parties.source entry.now) (resolved entry.now) }
{
    if !passes(entry, parties.source) {
        return Err(Fault::Source);
    }
    let vector = entry.vector;
    if !usable(vector) {
        return Err(Fault::Vector);
    }
    match entry.target {
        Target::Host { destination, .. } => Ok(Resolved::Host {
            vector,
            destination,
        }),
        Target::Posted { urgent, address } => {
            if address != parties.descriptor {
                return Err(Fault::Descriptor);
            }
            Ok(Resolved::Posted { vector, urgent })
        }
    }
}
