//! Stringified references, written: CORBA 3.0.3, section 13.6.9.
ghost use Rattle.std.specs.Prelude.{◌≡◌, ◌++◌, codes, IfOk, Ok};
ghost use Rattle.orb_base.specs.declared.order.Order.TheVariants.{Big};
ghost use Rattle.cdr_core.specs.Cursor.{AreBytes};
ghost use Rattle.cdr_core.specs.Encapsulation.{encapsulation};
ghost use Rattle.cdr_core.specs.Writing.{Puts};
ghost use Rattle.hex.specs.Hex.{encode_lower};
ghost use Rattle.object_refs.specs.Layout.{FitsReference, IsCountedReference, reference_fields};
ghost use Rattle.object_refs.specs.References.{IsReference, stringified};

use crate::ior::Ior;
use cdr_core::{Writer, put_list};
use orb_base::{NoMemory, Octets, Order, Text};
use std::alloc::Global;

/// Puts a reference.
fn put_reference(into: &mut Writer, ior: &Ior) -> Result<(), NoMemory>
    requires { IsCountedReference ior.now }
    ensures { Puts result into.old into.new (reference_fields ior.now) }
{
    into.put_string(&ior.type_id)?;
    put_list(into, ior.profiles.as_slice())
}

/// The encapsulation of a reference, big endian.
fn encapsulated(alloc: Global, ior: &Ior) -> Result<Octets, NoMemory>
    requires { IsCountedReference ior.now }
    ensures { IfOk result (λ o. o.items ≡ encapsulation Big (reference_fields ior.now)) }
{
    let mut into = Writer::new(alloc, Order::Big, 0);
    into.put_u8(0)?;
    put_reference(&mut into, ior)?;
    Ok(into.finish())
}

/// The prefix and the digits of bytes, in lower case.
fn digits_text(alloc: Global, bytes: &[u8]) -> Result<Text, NoMemory>
    ensures text { IfOk result (λ t. t ≡ codes "IOR:" ++ encode_lower bytes.now) }
    ensures bytes { AreBytes bytes.now }
{
    let digits = hex::encode(alloc, bytes)?;
    let mut text = Octets::new(alloc);
    text.append(b"IOR:")?;
    text.append(digits.as_bytes())?;
    match Text::new(alloc, text.as_slice()) {
        Ok(text) => Ok(text),
        Err(_) => Err(NoMemory),
    }
}

/// Writes a reference as its one text: `IOR:` and the hexadecimal digits, in lower case, of its encapsulation in big
/// order. Each length must be below 2^32. Work grows with the reference.
pub fn ior_text(alloc: Global, ior: &Ior) -> Result<Text, NoMemory>
    requires { IsCountedReference ior.now }
    ensures text { IfOk result (λ t. t ≡ stringified ior.now) }
    // What is written is read as the reference.
    ensures reads_back { FitsReference ior.now → IfOk result (IsReference ior.now) }
{
    let bytes = encapsulated(alloc, ior)?;
    digits_text(alloc, bytes.as_slice())
}
