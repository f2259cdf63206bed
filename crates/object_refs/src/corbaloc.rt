//! Object URLs of the scheme corbaloc: CORBA 3.0.3, section 13.6.10.
ghost use Rattle.std.specs.Prelude.{◌≡◌, IfOk, IfErr, IfSome, Ok, Err, option_map};
ghost use Rattle.object_refs.specs.Answers.{Answers, fault_of};
ghost use Rattle.object_refs.specs.declared.fault.RefFault.{RefFault as Fault};
ghost use Rattle.object_refs.specs.RefusingTexts.{RefusesLocation};
ghost use Rattle.object_refs.specs.Locations.{IsLocation};
ghost use Rattle.object_refs.specs.LocationReading.{behind, behind_protocol, location_of};
ghost use Rattle.object_refs.specs.Reference as Spec;

use crate::escape::key;
use crate::fault::{RefCause, RefError, refused_at};
use crate::host::host;
use crate::port::port;
use orb_base::{Octets, Text};
use std::alloc::Global;
use std::marker::Model;

/// What an object URL names: the address of a server that speaks IIOP 1.2, and the key of an object there.
#[derive(Debug, Drop)]
pub struct Corbaloc {
    /// A host of 1 to 255 bytes.
    pub host: Text,
    /// A port, 1 to 65535.
    pub port: u16,
    /// The key with its escapes read.
    pub key: Octets,
}

impl Model for Corbaloc {
    ghost use Rattle.object_refs.specs.Reference as Spec;

    ghost Value = { Spec.Location };

    ghost view = { λ l. record { host = l.host; port = l.port; key = l.key.items } };
}

/// What is after these very bytes.
#[tactic(auto, unfolding(crate::specs::LocationReading::behind))]
fn behind<'a>(front: &[u8], text: &'a [u8]) -> Option<&'a [u8]>
    ensures { option_map (λ x. x.now) result ≡ behind front.now text.now }
{
    text.strip_prefix(front)
}

/// What is after the scheme and the protocol.
#[tactic(auto, unfolding(crate::specs::LocationReading::behind_protocol))]
fn behind_protocol(text: &[u8]) -> Option<&[u8]>
    ensures { option_map (λ x. x.now) result ≡ behind_protocol text.now }
{
    let rest = behind(b"corbaloc:", text)?;
    match behind(b"iiop:", rest) {
        Some(address) => Some(address),
        None => behind(b":", rest),
    }
}

/// The location that a text names.
#[tactic(auto, unfolding(crate::specs::LocationReading::location_of))]
fn location(alloc: Global, text: &[u8]) -> Result<Corbaloc, RefError>
    ensures { Answers (λ l. l) result (location_of text.now) }
{
    let Some(version) = behind_protocol(text) else {
        return Err(refused_at(RefCause::NoPrefix, text, text));
    };
    let Some(address) = behind(b"1.2@", version) else {
        return Err(refused_at(RefCause::BadVersion, text, version));
    };
    let (host, end, rest) = host(text, address)?;
    let (port, rest) = port(text, end, rest)?;
    let key = key(alloc, text, rest)?;
    match Text::new(alloc, host) {
        Ok(host) => Ok(Corbaloc { host, port, key }),
        Err(_) => Err(RefError::NoMemory),
    }
}

/// Reads an object URL: `corbaloc:iiop:1.2@HOST:PORT/KEY` or the same with `corbaloc::`, where the port may be left out
/// with its colon and is then 2809, and `%hh` in the key is a byte. Refuses the first part that has no reading, at its
/// first byte: own profile. Work grows with the text; the host and the key are copied.
pub fn parse_corbaloc(alloc: Global, text: &[u8]) -> Result<Corbaloc, RefError>
    // The location, or which fault it is.
    ensures exact { Answers (λ l. l) result (location_of text.now) }
    // What is read is what the text names.
    ensures found { IfOk result (λ l. IsLocation l text.now) }
    // What the text names is read, unless memory is wanting.
    ensures only { (l : Spec.Location) → IsLocation l text.now → Answers (λ l. l) result (Ok l) }
    // A fault that is given is the first one.
    ensures fails { IfErr result (λ e. IfSome (fault_of e) (RefusesLocation text.now)) }
    // The first fault is given, unless memory is wanting.
    ensures told { (f : Fault) → RefusesLocation text.now f → Answers {Y = Spec.Location} (λ l. l) result (Err f) }
{
    location(alloc, text)
}
