// A descriptor as a value: reading it from its bytes, and writing it.
ghost use Rattle.std.specs.Prelude.{◌≡◌, true, IfOk, Ok, OnOk};
ghost use Rattle.descriptor.specs.Values.{contents_of, reads, layout_of, writable, writes, written, WrittenAs};

use crate::bytes::{
    MARKS, NDST, NV, SIZE, judge, marks_byte, marks_in, put_word, vector_of, word_at,
};
use crate::faults::Fault;
use sink::Marks;
use std::array;
use vectors::{VectorSet, usable_word};

#[derive(Clone, Copy, PartialEq, Eq, Debug)]
pub struct Contents {
    pub parked: VectorSet,
    pub marks: Marks,
    pub ndst: u8,
}

// Crate `polled` has the same functions over its layout: a trait for both would only list them, since every body differs.

// The descriptor that lies in the bytes. Writing what was read gives the bytes again.
impl TryFrom<&[u8]> for Contents {
    type Error = Fault;

    ghost try_from_gives = { λ bytes result. (result ≡ reads bytes.now) × IfOk result (λ c. WrittenAs c bytes.now) };

    fn try_from(bytes: &[u8]) -> Result<Contents, Fault> {
        Ok(taken_apart(judge(bytes)?))
    }
}

impl Contents {
    // Writes the descriptor. Bytes of another length and a value with a vector below 10h are refused, and the bytes left as
    // they are. Reading what was written gives the value again.
    pub fn write_to(&self, bytes: &mut [u8]) -> Result<(), Fault>
        ensures answer { result ≡ writes self.now bytes.old }
        ensures after { bytes.new ≡ written self.now bytes.old }
        ensures back { OnOk result (reads (layout_of self.now) ≡ Ok self.now) }
    {
        let bytes = bytes.as_mut_array().ok_or(Fault::Length)?;
        let words = <[u64; 4]>::from(self.parked);
        if !usable_word(0, words[0]) {
            return Err(Fault::Contents);
        }
        *bytes = self.laid_out();
        Ok(())
    }

    // The bytes of the value. No `From`, which would be public: a value is judged before it is written.
    fn laid_out(&self) -> [u8; SIZE]
        ensures value { result ≡ layout_of self.now }
        ensures back { writable self.now ≡ true → reads (layout_of self.now) ≡ Ok self.now }
    {
        let mut bytes = [0; SIZE];
        let words = <[u64; 4]>::from(self.parked);
        for (group, word) in words.iter().enumerate() {
            put_word(&mut bytes, group, *word);
        }
        bytes[MARKS] = marks_byte(self.marks);
        bytes[NV] = vector_of(self.marks.aim);
        bytes[NDST] = self.ndst;
        bytes
    }
}

// The value in the bytes. No `From`, which would be public: bytes are read once they are judged.
fn taken_apart(bytes: &[u8; SIZE]) -> Contents
    ensures { result ≡ contents_of bytes.now }
{
    Contents {
        parked: VectorSet::from(array::from_fn(|group| word_at(bytes, group))),
        marks: marks_in(bytes),
        ndst: bytes[NDST],
    }
}
