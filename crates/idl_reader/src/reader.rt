//! The repository of a whole text.
ghost use Rattle.std.specs.Prelude.{◌≤◌, List, length};
ghost use Rattle.idl_types.specs.Contents.{things_of};
ghost use Rattle.idl_types.specs.Things as things;
ghost use Rattle.idl_names.specs.Memory.{Yields};
ghost use Rattle.idl_reader.specs.Whole.{Declares, TellsOnly, TellsThings, text_things};

use crate::declaring::repository_of;
use grammar::ReadError;
use idl_grammar::IdlFault;
use idl_names::read_names;
use idl_tokens::MAX_TEXT;
use idl_types::Repository;
use std::alloc::Global;

/// Reads a text, and declares what its names declare.
fn read_text(alloc: Global, text: &[u8]) -> Result<Repository, ReadError<IdlFault>>
    requires { length text.now ≤ MAX_TEXT }
    ensures { Yields things_of result (text_things text.now) }
{
    let names = read_names(alloc, text)?;
    match repository_of(alloc, names) {
        Ok(repository) => Ok(repository),
        Err(_) => Err(ReadError::NoMemory),
    }
}

/// The repository of what a text of IDL of at most 1,048,576 bytes declares, or its first token at fault with its cause, its
/// line and its column. At most 64 brackets may be open at once. One pass over the text and one over what it declares; each
/// interface gets copies of all its operations.
pub fn read_idl(alloc: Global, text: &[u8]) -> Result<Repository, ReadError<IdlFault>>
    requires { length text.now ≤ MAX_TEXT }
    // it is what reading by the grammar, label by label, gives
    ensures exact { Yields things_of result (text_things text.now) }
    // what it tells is so, said without reading
    ensures whole { TellsThings result text.now }
    // and a text that declares things is never refused
    ensures only { (new : List things.Thing) → Declares text.now new → TellsOnly result new }
{
    read_text(alloc, text)
}
