// A page as a value, read from bytes and written into them.
ghost use Rattle.std.specs.Prelude.{◌≡◌, ◌<◌, true, length, IfOk, if◌then◌else◌, Ok, OnOk, slice_index};
ghost use Rattle.polled.specs.Layout.{is_page};
ghost use Rattle.polled.specs.Reading.{reads, contents_of, layout_of, writable, accepts, writes};

use crate::bytes::{MARKS, SIZE, judge, word_at};
use crate::faults::Fault;
use crate::marks::{marks_byte, marks_in};
use sink::Marks;
use std::array;
use vectors::{VectorSet, usable_word};

#[derive(Clone, Copy, PartialEq, Eq, Debug)]
pub struct Contents {
    pub parked: VectorSet,
    pub marks: Marks,
}

// Crate `descriptor` has the same functions over its layout: a trait for both would only list them, since every body differs.

// What the bytes of a page hold. What was read can be written, as the same bytes.
impl TryFrom<&[u8]> for Contents {
    type Error = Fault;

    ghost try_from_gives = { λ bytes result. (result ≡ reads bytes.now) × IfOk result (λ c. (accepts c 257 ≡ true) × (layout_of c ≡ bytes.now)) };

    fn try_from(bytes: &[u8]) -> Result<Contents, Fault> {
        Ok(taken_apart(judge(bytes)?))
    }
}

// The value in the bytes of a page. No `From`, which would be public: bytes are read once they are judged.
fn taken_apart(bytes: &[u8; SIZE]) -> Contents
    requires { is_page bytes.now ≡ true }
    ensures value { result ≡ contents_of bytes.now }
    ensures accepted { writable (contents_of bytes.now) ≡ true }
    ensures back { layout_of (contents_of bytes.now) ≡ bytes.now }
{
    Contents {
        parked: VectorSet::from(array::from_fn(|group| word_at(bytes, group))),
        marks: marks_in(bytes),
    }
}

impl Contents {
    // Writes the value as the bytes of a page. What was written is read as the same value. Another number of bytes and a parked
    // vector below 10h are refused, and the bytes stay as they are.
    pub fn write_to(&self, bytes: &mut [u8]) -> Result<(), Fault>
        ensures answer { result ≡ writes self.now (length bytes.old) }
        ensures bytes { bytes.new ≡ (if accepts self.now (length bytes.old) then layout_of self.now else bytes.old) }
        ensures back { OnOk result (reads bytes.new ≡ Ok self.now) }
    {
        let bytes = bytes.as_mut_array().ok_or(Fault::NotAPage)?;
        if !self.is_writable() {
            return Err(Fault::NotAPage);
        }
        *bytes = self.laid_out();
        Ok(())
    }

    // Whether a page can hold the value: no vector below 10h is parked. Such a value is read from the bytes that are written for it.
    fn is_writable(&self) -> bool
        ensures value { result ≡ writable self.now }
        ensures back { result ≡ true → reads (layout_of self.now) ≡ Ok self.now }
    {
        usable_word(0, <[u64; 4]>::from(self.parked)[0])
    }

    // The bytes of the value. No `From`, which would be public: a value is judged before it is written.
    fn laid_out(&self) -> [u8; SIZE]
        ensures { result ≡ layout_of self.now }
    {
        array::from_fn(|place| self.byte(place))
    }

    // The byte of a vector, or that of the marks.
    fn byte(&self, place: usize) -> u8
        requires { place < 257 }
        ensures { result ≡ slice_index (layout_of self.now) place }
    {
        match place {
            MARKS => marks_byte(self.marks),
            v => self.parked.contains(v as u8) as u8,
        }
    }
}
