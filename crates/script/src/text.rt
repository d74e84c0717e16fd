// The parts of a line: its bytes before the end and before the comment, its words and the blanks between them.
ghost use Rattle.script.specs.Bytes.{is_blank, is_text, Computes};
ghost use Rattle.script.specs.Parts.{without_return, before_comment, from_word, word_of, after_word};
ghost use Rattle.std.specs.List.{list_all, prefix_len};
ghost use Rattle.std.specs.Prelude.{◌≡◌, ℕ, ◌≤◌, Bool, length};

// The line without the CR that belongs to its end.
pub(crate) fn without_return(line: &[u8]) -> &[u8]
    ensures { result.now ≡ without_return line.now }
{
    match line {
        [front @ .., b'\r'] => front,
        _ => line,
    }
}

// What stands before the first `#`.
pub(crate) fn before_comment(line: &[u8]) -> &[u8]
    ensures { result.now ≡ before_comment line.now }
{
    &line[..leading(line, |b| b != b'#')]
}

// Is each byte a tab or one of 20h to 7Eh?
pub(crate) fn is_text(bytes: &[u8]) -> bool
    ensures { result ≡ list_all is_text bytes.now }
{
    bytes.iter().all(|b| matches!(*b, b'\t' | 0x20..=0x7e))
}

fn is_blank(b: u8) -> bool
    ensures { result ≡ is_blank b }
{
    matches!(b, b' ' | b'\t')
}

// From the first word on.
pub(crate) fn skip_blanks(text: &[u8]) -> &[u8]
    ensures { result.now ≡ from_word text.now }
{
    &text[leading(text, is_blank)..]
}

// The word that a text begins with, and what follows it.
pub(crate) fn split_word(text: &[u8]) -> (&[u8], &[u8])
    ensures word { result.0.now ≡ word_of text.now }
    ensures rest { result.1.now ≡ after_word text.now }
{
    text.split_at(leading(text, |b| !is_blank(b)))
}

// How many bytes in front pass, up to the first that does not.
fn leading<F: Fn(u8) -> bool>(bytes: &[u8], passes: F) -> usize
    requires callable { F.IsAlwaysCallable passes }
    ensures bound { result ≤ length bytes.now }
    ensures count { (p : ℕ → Bool) → Computes (F.post passes) p → result ≡ prefix_len p bytes.now }
{
    bytes.iter().take_while(|b| passes(**b)).count()
}
