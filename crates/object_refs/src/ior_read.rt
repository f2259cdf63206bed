//! The reading of stringified references: CORBA 3.0.3, section 13.6.9.
ghost use Rattle.std.specs.Prelude.{◌≡◌, ◌+◌, length, IfOk, IfErr, IfSome, Ok, Err};
ghost use Rattle.hex.specs.Hex.{decode_of};
ghost use Rattle.cdr_core.specs.Answers.{Gives};
ghost use Rattle.cdr_core.specs.Errors as cdr;
ghost use Rattle.object_refs.specs.Answers.{Answers, fault_of};
ghost use Rattle.object_refs.specs.declared.fault.RefFault.{RefFault as Fault};
ghost use Rattle.object_refs.specs.RefusingTexts.{RefusesReference};
ghost use Rattle.object_refs.specs.Reference as Spec;
ghost use Rattle.object_refs.specs.References.{IsReference, decoded, digits_of};
ghost use Rattle.object_refs.specs.References.{reference_at, reference_in, reference_of};

use crate::fault::{RefCause, RefError, RefFault};
use crate::ior::Ior;
use crate::take::take_text;
use cdr_core::{CdrError, Reader, take_list};
use hex::FromHexError;
use std::alloc::Global;

/// How many bytes the prefix has.
const PREFIX_LEN: usize = 4;

/// The digits after the prefix.
#[tactic(auto, unfolding(crate::specs::References::digits_of))]
fn digits_of(text: &[u8]) -> Result<&[u8], RefError>
    ensures exact { Answers (λ x. x.now) result (digits_of text.now) }
    ensures len { IfOk result (λ digits. length text.now ≡ length digits.now + 4) }
{
    if text.len() >= PREFIX_LEN {
        let (prefix, digits) = text.split_at(PREFIX_LEN);
        if prefix.eq_ignore_ascii_case(b"IOR:") {
            return Ok(digits);
        }
    }
    Err(RefError::Refused(RefFault {
        cause: RefCause::NoPrefix,
        place: 0,
    }))
}

/// The bytes of the digits of a text of this length.
fn decoded(alloc: Global, len: usize, digits: &[u8]) -> Result<Vec<u8>, RefError>
    requires { len ≡ length digits.now + 4 }
    ensures { Answers (λ v. v.items) result (decoded len (decode_of digits.now)) }
{
    let fault = match hex::decode(alloc, digits) {
        Ok(bytes) => return Ok(bytes),
        Err(FromHexError::OddLength) => RefFault {
            cause: RefCause::OddHex,
            place: len,
        },
        Err(FromHexError::InvalidHexCharacter { index, .. }) => RefFault {
            cause: RefCause::BadHex,
            place: PREFIX_LEN + index,
        },
        Err(_) => return Err(RefError::NoMemory),
    };
    Err(RefError::Refused(fault))
}

/// Takes a reference.
#[tactic(auto, unfolding(crate::specs::References::reference_at))]
fn reference(alloc: Global, reader: &mut Reader<'_>) -> Result<Ior, CdrError>
    ensures { Gives cdr.fault_of (λ r. r) result reader.new (reference_at reader.old) }
{
    let type_id = take_text(alloc, reader)?;
    let profiles = take_list(alloc, reader)?;
    Ok(Ior { type_id, profiles })
}

/// The reference that the bytes encapsulate.
#[tactic(auto, unfolding(crate::specs::References::reference_in))]
fn reference_in(alloc: Global, bytes: &[u8]) -> Result<Ior, RefError>
    ensures { Answers (λ r. r) result (reference_in bytes.now) }
{
    let mut reader = Reader::encapsulated(bytes)?;
    let ior = reference(alloc, &mut reader)?;
    Ok(ior)
}

/// The reference of a text.
#[tactic(auto, unfolding(crate::specs::References::reference_of))]
fn reference_of(alloc: Global, text: &[u8]) -> Result<Ior, RefError>
    ensures { Answers (λ r. r) result (reference_of text.now) }
{
    let digits = digits_of(text)?;
    let bytes = decoded(alloc, text.len(), digits)?;
    reference_in(alloc, bytes.as_slice())
}

/// Reads a stringified reference: `IOR:`, its letters of either case, and the hexadecimal digits of an encapsulation in
/// either byte order; bytes after the reference in it are ignored. Refuses with NoPrefix at place 0, OddHex at the
/// text's length, BadHex at the first bad digit, or the first fault of the encapsulation at its place there, in this
/// order. Work grows with the text; the encapsulation is decoded once, and its texts and octets are copied.
pub fn parse_ior(alloc: Global, text: &[u8]) -> Result<Ior, RefError>
    // The reference, or which fault it is.
    ensures exact { Answers (λ r. r) result (reference_of text.now) }
    // What is read is what the text means.
    ensures found { IfOk result (λ r. IsReference r text.now) }
    // What the text means is read, unless memory is wanting.
    ensures only { (r : Spec.Reference) → IsReference r text.now → Answers (λ r. r) result (Ok r) }
    // A fault that is given is the first one.
    ensures fails { IfErr result (λ e. IfSome (fault_of e) (RefusesReference text.now)) }
    // The first fault is given, unless memory is wanting.
    ensures told { (f : Fault) → RefusesReference text.now f → Answers {Y = Spec.Reference} (λ r. r) result (Err f) }
{
    reference_of(alloc, text)
}
