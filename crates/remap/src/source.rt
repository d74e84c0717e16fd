ghost use Rattle.std.specs.Prelude.{◌≡◌, true};
ghost use Rattle.remap.specs.Sources.{ignored as ignored_of, same_but, in_range, passes as passes_of, Agree, Compared};

use entry::Entry;

// Whether a source may use an entry.
pub fn passes(entry: &Entry, source: u16) -> bool
    ensures value { result ≡ passes_of entry.now source }
    ensures law { Compared entry.now source result }
{
    // By the field's numbers: an enum of the checks would be made from them by the same `match`.
    match entry.svt {
        0 => true,
        1 => agree(source, entry.sid, ignored(entry.sq)),
        2 => in_range(source, entry.sid),
        _ => false,
    }
}

// The bits of a source that the qualifier leaves out of the comparison.
fn ignored(sq: u8) -> u16
    ensures { result ≡ ignored_of sq }
{
    match sq {
        0 => 0b000,
        1 => 0b100,
        2 => 0b110,
        _ => 0b111,
    }
}

// Whether every bit outside the mask agrees.
fn agree(a: u16, b: u16, mask: u16) -> bool
    ensures value { result ≡ same_but mask a b }
    ensures yes { result ≡ true → Agree mask a b }
    ensures no { Agree mask a b → result ≡ true }
{
    a | mask == b | mask
}

// Whether the source's bus number lies between two that the identifier has.
fn in_range(source: u16, sid: u16) -> bool
    ensures { result ≡ in_range sid source }
{
    let bus = source >> 8;
    sid >> 8 <= bus && bus <= sid % 0x100
}
