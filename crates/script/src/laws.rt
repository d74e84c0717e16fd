// What holds of the reading of lines, and of a buffer that collects one.
ghost use Rattle.std.specs.Prelude.{◌≡◌, ℕ, ◌≤◌, List, [], ◌∷◌, ◌++◌, length, Some};
ghost use Rattle.script.specs.Held.{held, grown, read_held, keeps};
ghost use Rattle.script.specs.Laws.{Accepted, Commented, Returned, Examples};
ghost use Rattle.script.specs.Reading.{reading};
ghost use Rattle.script.specs.Sessions.{state, fresh, HasRead};

use crate::buffer::LineBuffer;
use crate::session::Session;

// Every line reads as a call that a bank does not refuse, a comment or a CR behind it does not matter, and the examples read as stated.
pub fn reading_laws()
    ensures accepted { (xs : List ℕ) → Accepted (reading xs) }
    ensures commented { (xs : List ℕ) → Commented xs (reading xs) }
    ensures returned { (xs : List ℕ) → Returned xs (reading xs) }
    ensures examples { Examples }
{}

// A buffer that keeps what it should of a line still does after one byte more, and what it keeps reads as the whole line.
pub fn buffer_laws()
    ensures grows { (xs : List ℕ) (b : ℕ) → grown (keeps xs) b ≡ keeps (xs ++ b ∷ []) }
    ensures reads { (xs : List ℕ) → read_held (keeps xs) ≡ reading xs }
{}

// A fresh session has read nothing.
pub fn session_laws()
    ensures { HasRead [] [] fresh }
{}

// What a buffer holds of a line is at most 128 bytes, in a session too.
pub fn bound_laws(line: &LineBuffer, session: &Session)
    ensures buffer { (xs : List ℕ) → held line.now.line ≡ Some xs → length xs ≤ 128 }
    ensures session { (xs : List ℕ) → (state session.now).line ≡ Some xs → length xs ≤ 128 }
{}
