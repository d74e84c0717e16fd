// The places of a descriptor's bytes, and what may stand there.
ghost use Rattle.std.specs.Prelude.{◌≡◌, ℕ, ◌+◌, ◌*◌, ◌/◌, ◌%◌, ◌^◌, ◌<◌, ◌≤◌, true, ◌++◌, length, take, drop, IfOk, bit_or, slice_index};
ghost use Rattle.packed.specs.Packed.{word as word_in, bytes_of, wiped};
ghost use Rattle.descriptor.specs.Layout.{marked, sent_for, aim_in, marks_in, permits, lawful, verdict, Judged};
ghost use Rattle.descriptor.specs.Values.{contents_of, WrittenAs};

use crate::faults::Fault;
use sink::{Aim, Marks};
use vectors::Group;

pub(crate) const SIZE: usize = 64;

// the byte of the marks: bit 0 is rung, bit 1 is quiet
pub(crate) const MARKS: usize = 32;

// the byte of the vector that a ring sends
pub(crate) const NV: usize = 34;

// the byte of the destination
pub(crate) const NDST: usize = 37;

// the vectors that are sent for the aims
pub(crate) const NOTIFICATION: u8 = 0xF2;

const WAKE: u8 = 0xF1;

// The byte of the marks. No `From` here and below: marks, aims and bytes are all types of other crates.
pub(crate) fn marks_byte(marks: Marks) -> u8
    ensures { result ≡ marked marks.rung marks.quiet }
{
    marks.rung as u8 + 2 * marks.quiet as u8
}

// The vector that is sent for an aim.
pub(crate) fn vector_of(aim: Aim) -> u8
    ensures { result ≡ sent_for aim }
{
    match aim {
        Aim::Notification => NOTIFICATION,
        Aim::Wake => WAKE,
    }
}

// The aim for which a vector is sent.
fn aim_of(vector: u8) -> Aim
    ensures { result ≡ aim_in vector }
{
    if vector == WAKE {
        Aim::Wake
    } else {
        Aim::Notification
    }
}

// The marks that stand in the bytes.
pub(crate) fn marks_in(bytes: &[u8; SIZE]) -> Marks
    ensures { result ≡ marks_in bytes.now }
{
    Marks {
        rung: bytes[MARKS] % 2 == 1,
        quiet: bytes[MARKS] / 2 % 2 == 1,
        aim: aim_of(bytes[NV]),
    }
}

// The word of a group. A plain index: `array::from_fn` gives one, and a `Group` of it would have to be judged.
pub(crate) fn word_at(bytes: &[u8; SIZE], group: usize) -> u64
    requires { group < 4 }
    ensures { result ≡ word_in 8 bytes.now (8 * group) 8 }
{
    u64::from_le_bytes(bytes.as_chunks().0[group])
}

// Writes the word of a group, again by a plain index, which `enumerate` gives. Not by `as_chunks_mut`, after which nothing is
// known of the bytes.
pub(crate) fn put_word(bytes: &mut [u8; SIZE], group: usize, word: u64)
    requires { group < 4 }
    ensures after { bytes.new ≡ take (8 * group) bytes.old ++ (bytes_of 8 word ++ drop (8 * group + 8) bytes.old) }
    ensures bounded { word < 2 ^ 64 }
{
    let from = 8 * group;
    bytes[from..from + 8].copy_from_slice(&word.to_le_bytes());
}

// Clears the word of a group.
pub(crate) fn clear_word(bytes: &mut [u8; SIZE], group: Group)
    ensures after { bytes.new ≡ wiped bytes.old (8 * group) 8 }
    ensures within { group < 4 }
{
    let from = 8 * group.index();
    bytes[from..from + 8].fill(0);
}

// The byte of a vector with its bit set; and that bytes are bytes.
pub(crate) fn byte_with(bytes: &[u8; SIZE], vector: u8) -> u8
    ensures value { result ≡ bit_or (slice_index bytes.now (vector / 8)) (2 ^ (vector % 8)) }
    ensures narrow { (k : ℕ) → slice_index bytes.now k < 256 }
{
    bytes[vector as usize / 8] | 1 << (vector % 8)
}

// Whether a byte may stand at a place.
fn allowed(place: usize, byte: u8) -> bool
    ensures { result ≡ permits place byte }
{
    match place {
        0..=1 => byte == 0,
        2..=31 => true,
        MARKS => byte < 4,
        NV => byte == WAKE || byte == NOTIFICATION,
        NDST => true,
        _ => byte == 0,
    }
}

// Whether each byte may stand where it does. Such bytes are those of a value.
// A `for` and not `all`: tried, and what `all` gives was not tied to the definition.
pub(crate) fn is_lawful(bytes: &[u8; SIZE]) -> bool
    ensures value { result ≡ lawful bytes.now }
    ensures back { result ≡ true → WrittenAs (contents_of bytes.now) bytes.now }
{
    for (place, byte) in bytes.iter().enumerate() {
        if !allowed(place, *byte) {
            return false;
        }
    }
    true
}

// The bytes of a descriptor, or why they are none.
pub(crate) fn judge(bytes: &[u8]) -> Result<&[u8; SIZE], Fault>
    ensures law { Judged bytes.now result }
    ensures same { IfOk result (λ b. b.now ≡ bytes.now) }
    ensures back { IfOk result (λ _. WrittenAs (contents_of bytes.now) bytes.now) }
{
    let bytes = bytes.as_array().ok_or(Fault::Length)?;
    if !is_lawful(bytes) {
        return Err(Fault::Contents);
    }
    Ok(bytes)
}
