ghost use Rattle.std.specs.Prelude.{Some};
ghost use Rattle.script.specs.Printed.{reason};

use std::error::Error;
use std::fmt;

// Why a line is refused, in the order in which the questions are asked.
#[derive(Clone, Copy, PartialEq, Eq, Debug)]
pub enum LineFault {
    // It has more than 128 bytes.
    TooLong,
    // Before the comment stands a byte that is neither a tab nor one of 20h to 7Eh.
    NotText,
    // Its first word is none of TAKE, EOI, TPR and INJECT.
    UnknownWord,
    // TPR or INJECT stands alone.
    MissingNumber,
    // It has more words than the call has parts.
    TooManyWords,
    // The number has a byte that is no hex digit.
    NotHex,
    // The number is more than FFh.
    TooLarge,
    // INJECT names a vector below 10h.
    Unusable,
}

impl fmt::Display for LineFault {
    ghost output = { λ fault. Some (reason fault) };

    fn fmt<W: fmt::Write>(&self, f: &mut fmt::Formatter<W>) -> fmt::Result {
        f.write_str(match self {
            LineFault::TooLong => "more than 128 bytes",
            LineFault::NotText => "bytes that are no text",
            LineFault::UnknownWord => "unknown word",
            LineFault::MissingNumber => "number missing",
            LineFault::TooManyWords => "too many words",
            LineFault::NotHex => "no hex number",
            LineFault::TooLarge => "number above FF",
            LineFault::Unusable => "vector below 10",
        })
    }
}

impl Error for LineFault {}
