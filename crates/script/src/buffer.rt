// The line that is being collected, byte by byte, in bounded memory.
ghost use Rattle.std.specs.Prelude.{◌≡◌, ℕ, ◌≤◌, List, [], ◌∷◌, ◌++◌, length, Some};
ghost use Rattle.std.specs.Option.{ForSome};
ghost use Rattle.script.specs.Held.{held, grown, read_held, keeps};
ghost use Rattle.script.specs.Laws.{Accepted};
ghost use Rattle.script.specs.Reading.{reading};

use crate::fault::LineFault;
use crate::line::{MAX_LINE, read_line};
use arrayvec::ArrayVec;
use bank::DirectCall;

// The bytes of a line so far. A line of more than 128 bytes is only remembered as too long.
// A ghost field and no model: callers of a model see its value alone, and would lack the bound.
#[derive(Drop)]
pub struct LineBuffer {
    line: Option<ArrayVec<u8, MAX_LINE>>,
    ghost within: { ForSome line (λ v. length v.items ≤ 128) },
}

impl LineBuffer {
    // The empty line.
    pub fn new() -> LineBuffer
        ensures { held result.line ≡ Some [] }
    {
        LineBuffer {
            line: Some(ArrayVec::new()),
        }
    }

    // One byte more.
    pub fn push(&mut self, b: u8)
        ensures after { held self.new.line ≡ grown (held self.old.line) b }
        ensures loses_nothing { (xs : List ℕ) → held self.old.line ≡ keeps xs → held self.new.line ≡ keeps (xs ++ b ∷ []) }
    {
        if let Some(line) = &mut self.line
            && line.try_push(b).is_err()
        {
            self.line = None;
        }
    }

    // The reading of the line that it holds.
    pub fn read(&self) -> Result<Option<DirectCall>, LineFault>
        ensures value { result ≡ read_held (held self.now.line) }
        ensures accepted { Accepted result }
        ensures loses_nothing { (xs : List ℕ) → held self.now.line ≡ keeps xs → result ≡ reading xs }
    {
        let line = self.line.as_ref().ok_or(LineFault::TooLong)?;
        read_line(line.as_slice())
    }

    // Holds the empty line again. One that is empty is left as it is, since a new one is 128 bytes of zeros.
    pub fn clear(&mut self)
        ensures { held self.new.line ≡ Some [] }
    {
        if !matches!(&self.line, Some(line) if line.as_slice().is_empty()) {
            *self = LineBuffer::new();
        }
    }
}
