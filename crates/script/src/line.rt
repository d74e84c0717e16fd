// The reading of one line.
ghost use Rattle.script.specs.Reading.{alone, only_number, tpr_of, inject_of, call_of, read_text, reading};
ghost use Rattle.std.specs.Prelude.{◌≡◌};

use crate::fault::LineFault;
use crate::number::hex_number;
use crate::text::{before_comment, is_text, skip_blanks, split_word, without_return};
use bank::DirectCall;
use vectors::usable;

// The most bytes that a line may have before its LF, a CR counted.
pub(crate) const MAX_LINE: usize = 128;

// A call that takes no number: no word may follow.
fn alone(call: DirectCall, rest: &[u8]) -> Result<DirectCall, LineFault>
    ensures { result ≡ alone call rest.now }
{
    if rest.is_empty() {
        Ok(call)
    } else {
        Err(LineFault::TooManyWords)
    }
}

// The number that a call takes, which is the one word that may follow.
fn only_number(rest: &[u8]) -> Result<u8, LineFault>
    ensures { result ≡ only_number rest.now }
{
    if rest.is_empty() {
        return Err(LineFault::MissingNumber);
    }
    let (word, after) = split_word(rest);
    if !skip_blanks(after).is_empty() {
        return Err(LineFault::TooManyWords);
    }
    hex_number(word)
}

fn read_tpr(rest: &[u8]) -> Result<DirectCall, LineFault>
    ensures { result ≡ tpr_of (only_number rest.now) }
{
    only_number(rest).map(DirectCall::Tpr)
}

fn read_inject(rest: &[u8]) -> Result<DirectCall, LineFault>
    ensures { result ≡ inject_of (only_number rest.now) }
{
    let vector = only_number(rest)?;
    if !usable(vector) {
        return Err(LineFault::Unusable);
    }
    Ok(DirectCall::Inject(vector))
}

// The call that `word` names, with what follows it.
fn read_call(word: &[u8], rest: &[u8]) -> Result<DirectCall, LineFault>
    ensures { result ≡ call_of word.now rest.now }
{
    match word {
        b"TAKE" => alone(DirectCall::Take, rest),
        b"EOI" => alone(DirectCall::Eoi, rest),
        b"TPR" => read_tpr(rest),
        b"INJECT" => read_inject(rest),
        _ => Err(LineFault::UnknownWord),
    }
}

// The call of a text that has no comment, or none where it has no word.
fn read_text(text: &[u8]) -> Result<Option<DirectCall>, LineFault>
    ensures { result ≡ read_text text.now }
{
    if !is_text(text) {
        return Err(LineFault::NotText);
    }
    let words = skip_blanks(text);
    if words.is_empty() {
        return Ok(None);
    }
    let (word, rest) = split_word(words);
    read_call(word, skip_blanks(rest)).map(Some)
}

// The call of a line, the bytes before an LF, or none where the line has no word.
pub fn read_line(line: &[u8]) -> Result<Option<DirectCall>, LineFault>
    ensures { result ≡ reading line.now }
{
    if line.len() > MAX_LINE {
        return Err(LineFault::TooLong);
    }
    read_text(before_comment(without_return(line)))
}
