//! The reading of IIOP profiles: CORBA 3.0.3, section 15.7.2.
ghost use Rattle.std.specs.Prelude.{◌≡◌, ℕ, IfOk, IfErr, IfSome, Ok, Err, option_map};
ghost use Rattle.cdr_core.specs.Answers.{Gives};
ghost use Rattle.cdr_core.specs.Errors as cdr;
ghost use Rattle.object_refs.specs.Answers.{Answers, fault_of};
ghost use Rattle.object_refs.specs.declared.fault.RefFault.{RefFault as Fault};
ghost use Rattle.object_refs.specs.Refusing.{RefusesProfile, RefusesFirst};
ghost use Rattle.object_refs.specs.Layout.{has_components};
ghost use Rattle.object_refs.specs.Profiles.{first_of, IsProfile, IsFirstProfile};
ghost use Rattle.object_refs.specs.ProfileReading.{components_at, versioned_at, supported};
ghost use Rattle.object_refs.specs.ProfileReading.{profile_of, first_profile_of};
ghost use Rattle.object_refs.specs.Reference as Spec;

use crate::fault::{RefCause, RefError, RefFault};
use crate::iiop_profile::IiopProfile;
use crate::ior::Ior;
use crate::take::{take_octets, take_text};
use cdr_core::{CdrError, Reader, take_list};
use orb_base::{List, Tagged};
use std::alloc::Global;

/// The tag of profiles of IIOP, TAG_INTERNET_IOP: CORBA 3.0.3, section 13.6.2.
pub const IIOP_TAG: u32 = 0;

/// Whether profiles of the version have components: from 1.1 on.
fn has_components(major: u8, minor: u8) -> bool
    ensures { result ≡ has_components major minor }
{
    (major, minor) >= (1, 1)
}

/// Takes components, where the version has them.
#[tactic(auto, unfolding(crate::specs::ProfileReading::components_at))]
fn components(
    alloc: Global,
    present: bool,
    reader: &mut Reader<'_>,
) -> Result<List<Tagged>, CdrError>
    ensures { Gives cdr.fault_of (λ l. l.items) result reader.new (components_at present reader.old) }
{
    if present {
        take_list(alloc, reader)
    } else {
        Ok(List::new(alloc))
    }
}

/// Takes a profile of any version, and gives its major version with it.
#[tactic(auto, unfolding(crate::specs::ProfileReading::versioned_at))]
fn versioned(alloc: Global, reader: &mut Reader<'_>) -> Result<(u8, IiopProfile), CdrError>
    ensures { Gives {Y = ℕ × Spec.Profile} cdr.fault_of (λ x. x) result reader.new (versioned_at reader.old) }
{
    let major = reader.take_u8()?;
    let minor = reader.take_u8()?;
    let host = take_text(alloc, reader)?;
    let port = reader.take_u16()?;
    let key = take_octets(alloc, reader)?;
    let components = components(alloc, has_components(major, minor), reader)?;
    let profile = IiopProfile {
        minor,
        host,
        port,
        key,
        components,
    };
    Ok((major, profile))
}

/// The profile, if its version is 1.2 or a later 1.x.
#[tactic(auto, unfolding(crate::specs::ProfileReading::supported))]
fn supported(major: u8, profile: IiopProfile) -> Result<IiopProfile, RefError>
    ensures { Answers (λ p. p) result (supported major profile) }
{
    if major == 1 && profile.minor > 1 {
        Ok(profile)
    } else {
        Err(RefError::Refused(RefFault {
            cause: RefCause::BadVersion,
            place: 0,
        }))
    }
}

/// The profile that the bytes encapsulate.
#[tactic(auto, unfolding(crate::specs::ProfileReading::profile_of))]
fn profile_of(alloc: Global, bytes: &[u8]) -> Result<IiopProfile, RefError>
    ensures { Answers (λ p. p) result (profile_of bytes.now) }
{
    let mut reader = Reader::encapsulated(bytes)?;
    let (major, profile) = versioned(alloc, &mut reader)?;
    supported(major, profile)
}

/// The profile that the bytes encapsulate, with what they mean.
fn meant(alloc: Global, bytes: &[u8]) -> Result<IiopProfile, RefError>
    ensures exact { Answers (λ p. p) result (profile_of bytes.now) }
    ensures found { IfOk result (λ p. IsProfile p bytes.now) }
    ensures only { (p : Spec.Profile) → IsProfile p bytes.now → Answers (λ p. p) result (Ok p) }
    ensures fails { IfErr result (λ e. IfSome (fault_of e) (RefusesProfile bytes.now)) }
    ensures told { (f : Fault) → RefusesProfile bytes.now f → Answers {Y = Spec.Profile} (λ p. p) result (Err f) }
{
    profile_of(alloc, bytes)
}

/// The first profile of IIOP.
fn first_of(profiles: &[Tagged]) -> Option<&Tagged>
    ensures { option_map (λ t. t.now) result ≡ first_of profiles.now }
{
    profiles.iter().find(|profile| profile.tag == IIOP_TAG)
}

/// Reads the first profile of IIOP of a reference, in either byte order; later ones are not looked at. Refuses with
/// NoIiop at place 0 where there is none, with the first fault of its encapsulation, at its place there, and with
/// BadVersion at place 0 where its version isn't 1.2 or a later 1.x. Work grows with the number of profiles and with
/// this one, whose texts and octets are copied.
#[tactic(auto, unfolding(crate::specs::ProfileReading::first_profile_of))]
pub fn first_iiop(alloc: Global, ior: &Ior) -> Result<IiopProfile, RefError>
    // The profile, or which fault it is.
    ensures exact { Answers (λ p. p) result (first_profile_of ior.now) }
    // What is read is the first profile of the reference.
    ensures found { IfOk result (λ p. IsFirstProfile p ior.now) }
    // The first profile of a reference is read, unless memory is wanting.
    ensures only { (p : Spec.Profile) → IsFirstProfile p ior.now → Answers (λ p. p) result (Ok p) }
    // A fault that is given is the first one.
    ensures fails { IfErr result (λ e. IfSome (fault_of e) (RefusesFirst ior.now)) }
    // The first fault is given, unless memory is wanting.
    ensures told { (f : Fault) → RefusesFirst ior.now f → Answers {Y = Spec.Profile} (λ p. p) result (Err f) }
{
    match first_of(ior.profiles.as_slice()) {
        Some(tagged) => meant(alloc, tagged.bytes.as_slice()),
        None => Err(RefError::Refused(RefFault {
            cause: RefCause::NoIiop,
            place: 0,
        })),
    }
}
