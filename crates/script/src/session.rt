// A script that is read byte by byte, its calls fed to the direct machine.
ghost use Rattle.std.specs.Prelude.{◌≡◌, true, IfOk, IfErr, Ok, Err};
ghost use Rattle.bank.specs.Machine.{lawful, answer, after};
ghost use Rattle.bank.specs.Rules.{view};
ghost use Rattle.script.specs.Sessions.{state, fresh, reply_to, after_line, after_byte, reply_at, LineRead, ByteRead};

use crate::buffer::LineBuffer;
use crate::fault::LineFault;
use crate::reply::{Made, Reply};
use bank::{Bank, DirectCall};

// No `impl Model`: a session's state has the bank's view, which holds sets as membership tests,
// and a model's value can hold no function.
#[derive(Drop)]
pub struct Session {
    line: LineBuffer,
    number: u64,
    bank: Bank,
}

impl Session {
    // Nothing read, and an empty bank.
    pub fn new() -> Session
        ensures { state result ≡ fresh }
    {
        Session {
            line: LineBuffer::new(),
            number: 0,
            bank: Bank::empty(),
        }
    }

    pub fn bank(&self) -> Bank
        ensures { view result ≡ (state self.now).bank }
    {
        self.bank
    }

    // One byte more of the script.
    pub fn byte(&mut self, b: u8) -> Option<Reply>
        ensures reply { result ≡ reply_at (state self.old) b }
        ensures after { state self.new ≡ after_byte (state self.old) b }
        ensures law { ByteRead (state self.old) b result (state self.new) }
    {
        if b == b'\n' {
            return self.end_line();
        }
        self.line.push(b);
        None
    }

    // The line ends here: at an LF, or at the end of the script.
    pub fn end_line(&mut self) -> Option<Reply>
        ensures reply { result ≡ reply_to (state self.old) }
        ensures after { state self.new ≡ after_line (state self.old) }
        ensures law { LineRead (state self.old) result (state self.new) }
    {
        self.number = self.number.saturating_add(1);
        let read = self.line.read();
        self.line.clear();
        let line = self.number;
        let outcome = make_call(&mut self.bank, read.transpose()?);
        Some(Reply { line, outcome })
    }
}

// Makes the call of a line, if it reads as one. A bank refuses no call that a line reads as.
// It takes what was read and not the call: of a bank that a closure changes, the check knows nothing afterwards.
fn make_call(bank: &mut Bank, read: Result<DirectCall, LineFault>) -> Result<Made, LineFault>
    ensures made { IfOk read (λ call. lawful call ≡ true → result ≡ Ok (record { call = call; answer = answer (view bank.old) call })) }
    ensures after { IfOk read (λ call. lawful call ≡ true → view bank.new ≡ after (view bank.old) call) }
    ensures refused { IfErr read (λ fault. (result ≡ Err fault) × (view bank.new ≡ view bank.old)) }
{
    let call = read?;
    let answer = bank.feed(call).map_err(|_| LineFault::Unusable)?;
    Ok(Made { call, answer })
}
