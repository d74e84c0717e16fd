// The bytes of a page.
ghost use Rattle.std.specs.Prelude.{◌≡◌, ◌*◌, ◌<◌, true, false, IfOk, if◌then◌else◌, MatchResult, nat_le};
ghost use Rattle.packed.specs.Packed.{word as word_in, wiped};
ghost use Rattle.polled.specs.declared.faults.Fault.TheVariants.{NotAPage};
ghost use Rattle.polled.specs.Layout.{is_page, lawful, flags_to};

use crate::faults::Fault;
use vectors::Group;

// How many bytes a page has, which of them has the marks, and how many each group of vectors has.
pub(crate) const SIZE: usize = 257;

pub(crate) const MARKS: usize = 256;

pub(crate) const GROUP: usize = 64;

const MOST_MARKS: u8 = 7;

// The bytes of a page, or that they are none.
pub(crate) fn judge(bytes: &[u8]) -> Result<&[u8; SIZE], Fault>
    ensures answer { MatchResult result (λ b. (is_page bytes.now ≡ true) × (b.now ≡ bytes.now)) (λ f. (is_page bytes.now ≡ false) × (f ≡ NotAPage)) }
{
    let bytes = bytes.as_array().ok_or(Fault::NotAPage)?;
    if !is_lawful(bytes) {
        return Err(Fault::NotAPage);
    }
    Ok(bytes)
}

// Whether each byte may stand where it does.
pub(crate) fn is_lawful(bytes: &[u8; SIZE]) -> bool
    ensures { result ≡ lawful bytes.now }
{
    are_flags(bytes) && bytes[MARKS] <= MOST_MARKS
}

// Whether the byte of each vector is 0 or 1, and 0 below 10h.
// A `for` and not `all`: tried, and what `all` gives was not tied to the definition.
fn are_flags(bytes: &[u8; SIZE]) -> bool
    ensures { result ≡ flags_to bytes.now 256 }
{
    for (v, flag) in bytes[..MARKS].iter().enumerate() {
        if *flag > most(v) {
            return false;
        }
    }
    true
}

// The most that the byte of a vector may be.
fn most(v: usize) -> u8
    ensures { result ≡ (if nat_le 16 v then 1 else 0) }
{
    if v < 0x10 { 0 } else { 1 }
}

// The parked vectors of a group, a bit each. A plain index: `array::from_fn` gives one, and a `Group` of it would have to be
// judged. That the bytes are a page's is a premise here and where a value is read: a ghost field or a judge says so to both.
pub(crate) fn word_at(bytes: &[u8; SIZE], group: usize) -> u64
    requires lawful { lawful bytes.now ≡ true }
    requires group { group < 4 }
    ensures { result ≡ word_in 1 bytes.now (64 * group) 64 }
{
    let from = GROUP * group;
    let mut word = 0;
    for (i, flag) in bytes[from..from + GROUP].iter().enumerate() {
        word |= (*flag as u64) << i;
    }
    word
}

// Clears the bytes of a group.
pub(crate) fn clear_group(bytes: &mut [u8; SIZE], group: Group)
    ensures after { bytes.new ≡ wiped bytes.old (64 * group) 64 }
    ensures within { group < 4 }
{
    let from = GROUP * group.index();
    bytes[from..from + GROUP].fill(0);
}
