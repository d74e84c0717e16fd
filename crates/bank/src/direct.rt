ghost use Rattle.std.specs.Prelude.{◌≡◌, IfOk, if◌then◌else◌, Ok, Err, Some};
ghost use Rattle.vectors.specs.declared.faults.Fault.TheVariants.{Unusable};
ghost use Rattle.bank.specs.Rules.{view};
ghost use Rattle.bank.specs.Machine.{lawful, answer, after};
ghost use Rattle.bank.specs.Laws.{Feeds};
ghost use Rattle.bank.specs.Printed.{call_text};

use super::state::Bank;
use std::fmt;
use vectors::Fault;

// A call of the direct machine, which is an empty bank that is fed one call after another.
#[derive(Clone, Copy, PartialEq, Eq, Debug)]
pub enum DirectCall {
    Take,
    Eoi,
    Tpr(u8),
    Inject(u8),
}

// As a script has it: the word, and the number as two hex digits.
impl fmt::Display for DirectCall {
    ghost output = { λ call. Some (call_text call) };

    #[tactic(auto, using(std::proofs::lemmas::Fmt::hex_byte))]
    fn fmt<W: fmt::Write>(&self, f: &mut fmt::Formatter<W>) -> fmt::Result {
        match *self {
            DirectCall::Take => f.write_str("TAKE"),
            DirectCall::Eoi => f.write_str("EOI"),
            DirectCall::Tpr(n) => write!(f, "TPR {n:02X}"),
            DirectCall::Inject(v) => write!(f, "INJECT {v:02X}"),
        }
    }
}

impl Bank {
    // One call of the direct machine, with its answer. An injected vector below 10h is refused.
    // Fed from the empty bank on, it is the direct machine over the whole list of calls.
    pub fn feed(&mut self, call: DirectCall) -> Result<Option<u8>, Fault>
        ensures answer { result ≡ (if lawful call then Ok (answer (view self.old) call) else Err Unusable) }
        ensures after { view self.new ≡ (if lawful call then after (view self.old) call else view self.old) }
        ensures law { IfOk result (λ a. Feeds (view self.old) call a (view self.new)) }
    {
        match call {
            DirectCall::Take => Ok(self.take()),
            DirectCall::Eoi => Ok(self.eoi()),
            DirectCall::Tpr(n) => {
                self.set_tpr(n);
                Ok(None)
            }
            DirectCall::Inject(v) => {
                self.inject(v)?;
                Ok(None)
            }
        }
    }
}
