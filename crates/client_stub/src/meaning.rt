//! The remote object of a text.
ghost use Rattle.std.specs.Prelude.{◌≡◌, IfOk, Ok, option_map};
ghost use Rattle.std.specs.Option.{option_and_then};
ghost use Rattle.object_refs.specs.Answers.{Answers};
ghost use Rattle.service_contexts.specs.Moves.{items_of};
ghost use Rattle.service_contexts.specs.Publishing.{if_apart};
ghost use Rattle.client_stub.specs.Meaning as Meaning;
ghost use Rattle.client_stub.specs.Remotes as Spec;

use crate::remote::Remote;
use banded_links::Bands;
use object_refs::{IiopProfile, Ior, RefError, first_iiop, parse_corbaloc, parse_ior};
use orb_base::{Band, List, NoMemory, Text};
use service_contexts::{published_bands, published_model};
use std::alloc::Global;

/// The bands of a list, unless two of them share a priority.
#[tactic(auto, using(crate::proofs::Again::made_apart))]
fn apart(bands: Option<List<Band>>) -> Option<Bands>
    ensures { result ≡ option_and_then if_apart (option_map items_of bands) }
{
    Bands::new(bands?).ok()
}

/// The object of a reference by one of its profiles.
#[tactic(auto, using(crate::proofs::Again::apart_again))]
fn referred(alloc: Global, ior: Ior, profile: IiopProfile) -> Result<Remote, NoMemory>
    ensures { IfOk result (λ remote. remote ≡ Spec.referred ior profile) }
{
    let components = profile.components.as_slice();
    let model = published_model(components);
    let bands = apart(published_bands(alloc, components)?);
    Ok(Remote {
        host: profile.host,
        port: profile.port,
        key: profile.key,
        type_id: ior.type_id,
        model,
        bands,
    })
}

/// The object that an object URL names.
#[tactic(auto, unfolding(crate::specs::Meaning::url_remote))]
fn url_remote(alloc: Global, text: &[u8]) -> Result<Remote, RefError>
    ensures exact { Answers (λ r. r) result (Meaning.url_remote text.now) }
    ensures found { IfOk result (λ r. Meaning.IsRemote r text.now) }
{
    let location = parse_corbaloc(alloc, text)?;
    let Ok(type_id) = Text::new(alloc, b"") else {
        return Err(RefError::NoMemory);
    };
    Ok(Remote {
        host: location.host,
        port: location.port,
        key: location.key,
        type_id,
        model: None,
        bands: None,
    })
}

/// The object that a stringified reference means.
#[tactic(auto, unfolding(crate::specs::Meaning::ior_remote))]
fn ior_remote(alloc: Global, text: &[u8]) -> Result<Remote, RefError>
    ensures exact { Answers (λ r. r) result (Meaning.ior_remote text.now) }
    ensures found { IfOk result (λ r. Meaning.IsRemote r text.now) }
{
    let ior = parse_ior(alloc, text)?;
    let profile = first_iiop(alloc, &ior)?;
    match referred(alloc, ior, profile) {
        Ok(remote) => Ok(remote),
        Err(NoMemory) => Err(RefError::NoMemory),
    }
}

/// The object that a text means.
#[tactic(auto, unfolding(crate::specs::Meaning::remote_of))]
fn meant(alloc: Global, text: &[u8]) -> Result<Remote, RefError>
    ensures exact { Answers (λ r. r) result (Meaning.remote_of text.now) }
    ensures found { IfOk result (λ r. Meaning.IsRemote r text.now) }
{
    if text.starts_with(b"corbaloc:") {
        url_remote(alloc, text)
    } else {
        ior_remote(alloc, text)
    }
}

/// The remote object that the text of a reference means: an object URL where it begins with `corbaloc:`, and else a
/// stringified reference, of which the first IIOP profile counts, with the priority model and the bands that it publishes.
/// The text is refused where it has no reading, for the first cause and at its place. Work grows with the text and, for n
/// bands, with n * n.
pub fn remote_of(alloc: Global, text: &[u8]) -> Result<Remote, RefError>
    // The remote, or which fault it is.
    ensures exact { Answers (λ r. r) result (Meaning.remote_of text.now) }
    // What is read is what the text means.
    ensures found { IfOk result (λ r. Meaning.IsRemote r text.now) }
    // What the text means is read, unless memory is wanting.
    ensures only { (remote : Spec.Remote) → Meaning.IsRemote remote text.now → Answers (λ r. r) result (Ok remote) }
{
    meant(alloc, text)
}
