//! The parts of a reference, line by line.
ghost use Rattle.std.specs.Prelude.{◌≡◌, ◌++◌, OnOk, IfOk, IfErr, string_bytes};
ghost use Rattle.object_refs.specs.Answers.{Answers};
ghost use Rattle.reference_lines.specs.ReferenceText.{profile_text, location_text};
ghost use Rattle.reference_lines.specs.RefsText as Meaning;
ghost use Rattle.reference_lines.specs.Refs.{WritesLines, CutsOff, Refs};

use crate::ref_lines::{Address, put_address, put_bands, put_model, put_type};
use crate::refs_end::{MAX_REFERENCE, RefsEnd};
use object_refs::{Corbaloc, IiopProfile, Ior, RefError, first_iiop, parse_corbaloc, parse_ior};
use orb_base::{NoMemory, Sink, Source};
use service_contexts::{published_bands, published_model};
use std::alloc::Global;
use text_streams::{ReadAll, WriteAll, read_all, write_all};

/// The text of an input: one line feed at its end doesn't belong to it.
#[tactic(auto, unfolding(crate::specs::RefsText::text_of))]
fn text_of(input: &[u8]) -> &[u8]
    ensures { result.now ≡ Meaning.text_of input.now }
{
    match input.split_last() {
        Some((last, text)) if *last == b'\n' => text,
        _ => input,
    }
}

/// Puts the lines of a location.
fn put_location(text: &mut String, location: &Corbaloc) -> Result<(), NoMemory>
    ensures { OnOk result (string_bytes text.new ≡ string_bytes text.old ++ location_text location.now) }
{
    let address = Address {
        host: &location.host,
        port: location.port,
        key: &location.key,
    };
    put_address(text, address)
}

/// Puts the lines of a reference with this profile.
fn put_profile(
    alloc: Global,
    text: &mut String,
    ior: &Ior,
    profile: &IiopProfile,
) -> Result<(), NoMemory>
    ensures { OnOk result (string_bytes text.new ≡ string_bytes text.old ++ profile_text ior.now.type_id profile.now) }
{
    let components = profile.components.as_slice();
    let bands = published_bands(alloc, components)?;
    let address = Address {
        host: &profile.host,
        port: profile.port,
        key: &profile.key,
    };
    put_type(text, &ior.type_id)?;
    put_address(text, address)?;
    put_model(text, published_model(components))?;
    put_bands(text, &bands)
}

/// The lines of an object URL.
#[tactic(auto, unfolding(crate::specs::RefsText::location_lines))]
fn location_lines(alloc: Global, text: &[u8]) -> Result<String, RefError>
    ensures exact { Answers string_bytes result (Meaning.location_lines text.now) }
    ensures printed { IfOk result (λ lines. Meaning.IsPrinted (string_bytes lines) text.now) }
    ensures refused { IfErr result (λ e. Meaning.NamesNone e text.now) }
{
    let location = parse_corbaloc(alloc, text)?;
    let mut lines = String::new(alloc);
    match put_location(&mut lines, &location) {
        Ok(()) => Ok(lines),
        Err(NoMemory) => Err(RefError::NoMemory),
    }
}

/// The lines of a stringified reference.
#[tactic(auto, unfolding(crate::specs::RefsText::reference_lines))]
fn reference_lines(alloc: Global, text: &[u8]) -> Result<String, RefError>
    ensures exact { Answers string_bytes result (Meaning.reference_lines text.now) }
    ensures printed { IfOk result (λ lines. Meaning.IsPrinted (string_bytes lines) text.now) }
    ensures refused { IfErr result (λ e. Meaning.RefersNowhere e text.now) }
{
    let ior = parse_ior(alloc, text)?;
    let profile = first_iiop(alloc, &ior)?;
    let mut lines = String::new(alloc);
    match put_profile(alloc, &mut lines, &ior, &profile) {
        Ok(()) => Ok(lines),
        Err(NoMemory) => Err(RefError::NoMemory),
    }
}

/// The lines of a text.
#[tactic(auto, unfolding(crate::specs::RefsText::lines_of))]
fn lines_of(alloc: Global, text: &[u8]) -> Result<String, RefError>
    ensures exact { Answers string_bytes result (Meaning.lines_of text.now) }
    ensures printed { IfOk result (λ lines. Meaning.IsPrinted (string_bytes lines) text.now) }
    ensures refused { IfErr result (λ e. Meaning.MeansNothing e text.now) }
{
    if text.starts_with(b"corbaloc:") {
        location_lines(alloc, text)
    } else {
        reference_lines(alloc, text)
    }
}

/// Writes the lines of a text.
fn write_lines<O: Sink>(alloc: Global, text: &[u8], sink: &mut O) -> Result<RefsEnd, NoMemory>
    ensures { WritesLines result text.now (O.state sink.old) (O.state sink.new) }
{
    match lines_of(alloc, text) {
        Ok(lines) => match write_all(sink, lines.as_bytes()) {
            WriteAll::Whole => Ok(RefsEnd::Done),
            WriteAll::Failed => Ok(RefsEnd::WriteFault),
        },
        Err(RefError::Refused(fault)) => Ok(RefsEnd::Refused(fault)),
        Err(RefError::NoMemory) => Err(NoMemory),
    }
}

/// What comes of a text after which a read failed: what is there may be too long already.
fn cut_off(text: &[u8]) -> RefsEnd
    ensures { CutsOff result text.now }
{
    if text.len() > MAX_REFERENCE {
        RefsEnd::TooLong
    } else {
        RefsEnd::ReadFault
    }
}

/// Writes the parts of the reference that the input is, line by line: an object URL where it begins with `corbaloc:`,
/// and else a stringified reference, of which the first IIOP profile counts. One line feed at the end of the input
/// doesn't belong to the text, which has at most `MAX_REFERENCE` bytes: a longer one is refused also where the next read
/// fails. Nothing is written of a text that has no reading.
///
/// It keeps the input and its parts, and returns where each read and write returns. Work grows with the input and, for
/// n bands, with n log n.
pub fn refs_run<I: Source, O: Sink>(
    alloc: Global,
    source: &mut I,
    sink: &mut O,
) -> Result<RefsEnd, NoMemory>
    ensures { Refs result (I.state source.old) (I.state source.new) (O.state sink.old) (O.state sink.new) }
{
    match read_all(alloc, MAX_REFERENCE + 1, source) {
        ReadAll::Whole(input) => {
            let text = text_of(input.as_slice());
            if text.len() > MAX_REFERENCE {
                return Ok(RefsEnd::TooLong);
            }
            write_lines(alloc, text, sink)
        }
        ReadAll::TooLong => Ok(RefsEnd::TooLong),
        ReadAll::Failed(input) => Ok(cut_off(text_of(input.as_slice()))),
        ReadAll::NoMemory => Err(NoMemory),
    }
}
