// Making a page of lent bytes, and taking it up.
ghost use Rattle.std.specs.Prelude.{◌≡◌, true, List, length, is_ok, if◌then◌else◌, Ok, Err, OnOk, nat_eq};
ghost use Rattle.sink.specs.Meaning.{empty_sink};
ghost use Rattle.sink.specs.Ops.{Op, Chain};
ghost use Rattle.polled.specs.declared.faults.Fault.TheVariants.{NotAPage};
ghost use Rattle.polled.specs.Layout.{polled, is_page, prepared, PolledDid};

use crate::bytes::{SIZE, judge};
use crate::faults::Fault;
use crate::page::Page;
use sink::Visit;
use store::visit_store;

// Crate `descriptor` has this and the visit over its layout and refusals: a trait for both would only list their parts.
// Writes the page of an empty sink. Another number of bytes is refused, and they stay as they are.
pub fn prepare(bytes: &mut [u8]) -> Result<(), Fault>
    ensures answer { result ≡ (if nat_eq (length bytes.old) 257 then Ok tt else Err NotAPage) }
    ensures bytes { bytes.new ≡ (if nat_eq (length bytes.old) 257 then prepared else bytes.old) }
    ensures empty { OnOk result (polled bytes.new ≡ empty_sink (λ v. v)) }
    ensures page { OnOk result (is_page bytes.new ≡ true) }
{
    let bytes = bytes.as_mut_array().ok_or(Fault::NotAPage)?;
    *bytes = empty();
    Ok(())
}

// The page of an empty sink.
fn empty() -> [u8; SIZE]
    ensures bytes { result ≡ prepared }
    ensures empty { polled prepared ≡ empty_sink (λ v. v) }
    ensures page { is_page prepared ≡ true }
{
    [0; SIZE]
}

// Lets a visitor at the sink that lies in the bytes. Bytes that are no page are refused, and they and the visitor stay as they are.
pub fn with_page<V: Visit>(bytes: &mut [u8], visitor: &mut V) -> Result<V::Out, Fault>
    ensures judged { is_ok result ≡ is_page bytes.old }
    ensures did { elim result [
      | Ok o ↦ ((os : List Op) × V.Visit.did visitor.old (polled bytes.old) os o visitor.new (polled bytes.new) × Chain PolledDid bytes.old os bytes.new)
      | Err f ↦ (f ≡ NotAPage) × (bytes.new ≡ bytes.old) × (visitor.new ≡ visitor.old)
    ] }
    ensures page { is_page bytes.new ≡ is_page bytes.old }
{
    judge(bytes)?;
    let bytes = bytes.as_mut_array().ok_or(Fault::NotAPage)?;
    let mut page = Page { bytes };
    Ok(visit_store(&mut page, visitor))
}
