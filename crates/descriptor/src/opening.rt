// Lent bytes as a descriptor: writing an empty one, and letting a visitor at one.
ghost use Rattle.std.specs.Prelude.{◌≡◌, true, List, length, if◌then◌else◌, Ok, Err, OnOk, nat_eq};
ghost use Rattle.sink.specs.Meaning.{empty_sink};
ghost use Rattle.sink.specs.Ops.{Op, Chain};
ghost use Rattle.descriptor.specs.declared.faults.Fault.TheVariants.{Length};
ghost use Rattle.descriptor.specs.Layout.{described, lawful, IsDescriptor, Judged, prepared};
ghost use Rattle.descriptor.specs.Steps.{DescriptorDid};

use crate::bytes::{NOTIFICATION, NV, SIZE, judge};
use crate::faults::Fault;
use crate::live::Descriptor;
use sink::Visit;
use store::visit_store;

// The bytes of an empty descriptor.
fn empty() -> [u8; SIZE]
    ensures value { result ≡ prepared }
    ensures means { described result ≡ empty_sink (λ v. v) }
    ensures lawful { lawful result ≡ true }
{
    let mut bytes = [0; SIZE];
    bytes[NV] = NOTIFICATION;
    bytes
}

// Crate `polled` has this and the visit over its layout and refusal: a trait for both would only list their parts.
// Writes an empty descriptor. Bytes of another length are refused, and left as they are.
pub fn prepare(bytes: &mut [u8]) -> Result<(), Fault>
    ensures answer { result ≡ (if nat_eq (length bytes.old) 64 then Ok tt else Err Length) }
    ensures after { bytes.new ≡ (if nat_eq (length bytes.old) 64 then prepared else bytes.old) }
    ensures empty { OnOk result ((described bytes.new ≡ empty_sink (λ v. v)) × (lawful bytes.new ≡ true)) }
{
    let bytes = bytes.as_mut_array().ok_or(Fault::Length)?;
    *bytes = empty();
    Ok(())
}

// Lets a visitor at the descriptor that lies in the bytes. Bytes that are none are refused; then bytes and visitor are left as they are.
pub fn with_descriptor<V: Visit>(bytes: &mut [u8], visitor: &mut V) -> Result<V::Out, Fault>
    ensures judged { Judged bytes.old result }
    ensures did { elim result [
      | Ok o ↦ ((os : List Op) × V.Visit.did visitor.old (described bytes.old) os o visitor.new (described bytes.new) × Chain DescriptorDid bytes.old os bytes.new)
      | Err f ↦ (bytes.new ≡ bytes.old) × (visitor.new ≡ visitor.old)
    ] }
    ensures lawful { OnOk result (IsDescriptor bytes.new) }
{
    judge(bytes)?;
    let bytes = bytes.as_mut_array().ok_or(Fault::Length)?;
    let mut descriptor = Descriptor { bytes };
    Ok(visit_store(&mut descriptor, visitor))
}
