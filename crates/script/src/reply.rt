// What comes of a line that is not blank.
ghost use Rattle.std.specs.Prelude.{Some};
ghost use Rattle.script.specs.Printed.{made_text, reply_text};

use crate::fault::LineFault;
use bank::DirectCall;
use std::fmt;

// A call that was made, with its answer.
#[derive(Clone, Copy, PartialEq, Eq, Debug)]
pub struct Made {
    pub call: DirectCall,
    pub answer: Option<u8>,
}

// The number of a line, and the call that it made or why it is refused.
#[derive(Clone, Copy, PartialEq, Eq, Debug)]
pub struct Reply {
    pub line: u64,
    pub outcome: Result<Made, LineFault>,
}

// The call, and the vector or none that TAKE and EOI answer; the others are done.
impl fmt::Display for Made {
    ghost output = { λ made. Some (made_text made) };

    #[tactic(auto, using(std::proofs::lemmas::Fmt::hex_byte))]
    fn fmt<W: fmt::Write>(&self, f: &mut fmt::Formatter<W>) -> fmt::Result {
        let Made { call, answer } = *self;
        match (call, answer) {
            (DirectCall::Take | DirectCall::Eoi, Some(v)) => write!(f, "{call} -> {v:02X}"),
            (DirectCall::Take | DirectCall::Eoi, None) => write!(f, "{call} -> none"),
            (DirectCall::Tpr(_) | DirectCall::Inject(_), _) => write!(f, "{call} -> done"),
        }
    }
}

impl fmt::Display for Reply {
    ghost output = { λ reply. Some (reply_text reply) };

    fn fmt<W: fmt::Write>(&self, f: &mut fmt::Formatter<W>) -> fmt::Result {
        let line = self.line;
        match self.outcome {
            Ok(made) => write!(f, "{line}: {made}"),
            Err(fault) => write!(f, "{line}: refused: {fault}"),
        }
    }
}
