//! The listing of a file.
ghost use Rattle.std.specs.Prelude.{ℕ, List};
ghost use Rattle.idl_types.specs.Things as things;
ghost use Rattle.idl_types.specs.Contents.{things_of};
ghost use Rattle.idl_reader.specs.Whole.{text_things};
ghost use Rattle.idl_lines.specs.Texts.{FileTells, IsTold};
ghost use Rattle.idl_lines.specs.Ending.{Ends, Lists, OnlyLists, ListsExactly};

use crate::idl_end::IdlEnd;
use crate::listing::write_listing;
use crate::texts::read_file;
use idl_types::Repository;
use orb_base::{Files, NoMemory, Sink, Text};
use std::alloc::Global;
use text_streams::WriteAll;

/// Writes the listing of a repository.
fn list<O: Sink>(alloc: Global, out: &mut O, repository: &Repository) -> IdlEnd
    ensures { Ends result (things_of repository.now) (O.state out.old) (O.state out.new) }
{
    match write_listing(alloc, out, repository) {
        Ok(WriteAll::Whole) => IdlEnd::Done,
        Ok(WriteAll::Failed) => IdlEnd::WriteFault,
        Err(NoMemory) => IdlEnd::NoMemory,
    }
}

/// Writes the listing of what the file of a name declares, a text of IDL of at most 1,048,576 bytes: in order of declaration a line
/// for each constant, type, exception and interface, and after an interface a line for each of its operations, the inherited ones
/// first. Nothing is written where the text is refused, at its first token at fault. Out of memory is given as `read_idl` tells it.
/// Work and memory grow with the text, what it declares and the listing.
pub fn idl_run<F: Files, O: Sink>(alloc: Global, files: &mut F, name: &Text, out: &mut O) -> IdlEnd
    // Each end comes only where its cause is there.
    ensures lists { Lists result name.now (F.state files.old) (F.state files.new) (O.state out.old) (O.state out.new) }
    // A file that is given and declares things is listed, unless the store, the sink or memory fails.
    ensures only { (declared : List things.Thing) → FileTells (F.state files.old) name.now declared
        → OnlyLists result declared (O.state out.old) (O.state out.new) }
    // And one that is given is listed or refused as reading it by the grammar gives.
    ensures exact { (bytes : List ℕ) → IsTold (F.state files.old) name.now bytes
        → ListsExactly result (text_things bytes) (O.state out.old) (O.state out.new) }
{
    match read_file(alloc, files, name) {
        Ok(repository) => list(alloc, out, &repository),
        Err(end) => end,
    }
}
