//! The listing of a repository.
ghost use Rattle.std.specs.Prelude.{◌≡◌, ◌++◌, IfOk, OnOk, string_bytes};
ghost use Rattle.idl_types.specs.Contents.{things_of};
ghost use Rattle.idl_lines.specs.Listing.{lines_at, listing};
ghost use Rattle.idl_lines.specs.Writing.{WritesListing};

use crate::lines::put_lines;
use idl_types::Repository;
use orb_base::{NoMemory, Sink};
use std::alloc::Global;
use text_streams::{WriteAll, write_all};

/// Puts the lines of the thing at an index after the text.
fn put_nth(text: &mut String, repository: &Repository, at: usize) -> Result<(), NoMemory>
    ensures { OnOk result (string_bytes text.new ≡ string_bytes text.old ++ lines_at (things_of repository.now) at) }
{
    match repository.nth(at) {
        Some(declaration) => put_lines(text, declaration),
        None => Ok(()),
    }
}

/// The lines of all things, in order of declaration.
#[tactic(auto, using(crate::proofs::Walks::more_lines, crate::proofs::Walks::all_lines))]
fn listing_made(alloc: Global, repository: &Repository) -> Result<String, NoMemory>
    ensures { IfOk result (λ text. string_bytes text ≡ listing (things_of repository.now)) }
{
    let mut text = String::new(alloc);
    for at in 0..repository.len() {
        put_nth(&mut text, repository, at)?;
    }
    Ok(text)
}

/// Writes the listing of a repository: in order of declaration a line for each thing, and after that of an interface a line for
/// each of its operations, the inherited ones first. Nothing is written where memory is wanting. Work and memory grow with the
/// listing.
pub fn write_listing<O: Sink>(
    alloc: Global,
    out: &mut O,
    repository: &Repository,
) -> Result<WriteAll, NoMemory>
    // All of it is written, or a prefix of it up to a fault of the sink, which its count tells.
    ensures { WritesListing result (listing (things_of repository.now)) (O.state out.old) (O.state out.new) }
{
    let text = listing_made(alloc, repository)?;
    Ok(write_all(out, text.as_bytes()))
}
