//! What the text of IDL in a file declares.
ghost use Rattle.std.specs.Prelude.{◌≤◌, ℕ, length, List};
ghost use Rattle.idl_types.specs.Things as things;
ghost use Rattle.idl_reader.specs.Whole.{Declares, text_things};
ghost use Rattle.idl_lines.specs.Texts.{ReadsBytes, OnlyReads, ReadsExactly, ReadsFile, FileTells, IsTold};

use crate::idl_end::IdlEnd;
use grammar::ReadError;
use idl_reader::read_idl;
use idl_tokens::MAX_TEXT;
use idl_types::Repository;
use orb_base::{Filed, Files, Octets, Text};
use std::alloc::Global;

/// What bytes of IDL declare.
fn read_bytes(alloc: Global, bytes: &[u8]) -> Result<Repository, IdlEnd>
    requires { length bytes.now ≤ MAX_TEXT }
    ensures reads { ReadsBytes result bytes.now }
    ensures only { (declared : List things.Thing) → Declares bytes.now declared → OnlyReads result declared }
    ensures exact { ReadsExactly result (text_things bytes.now) }
{
    match read_idl(alloc, bytes) {
        Ok(repository) => Ok(repository),
        Err(ReadError::Refused(fault)) => Err(IdlEnd::Refused(fault)),
        Err(ReadError::NoMemory) => Err(IdlEnd::NoMemory),
    }
}

/// What the file of this name declares.
pub fn read_file<F: Files>(alloc: Global, files: &mut F, name: &Text) -> Result<Repository, IdlEnd>
    ensures reads { ReadsFile result name.now (F.state files.old) (F.state files.new) }
    ensures only { (declared : List things.Thing) → FileTells (F.state files.old) name.now declared → OnlyReads result declared }
    ensures exact { (bytes : List ℕ) → IsTold (F.state files.old) name.now bytes → ReadsExactly result (text_things bytes) }
{
    let mut bytes = Octets::new(alloc);
    match files.read(name, MAX_TEXT, &mut bytes) {
        Filed::Whole => read_bytes(alloc, bytes.as_slice()),
        Filed::Absent => Err(IdlEnd::Absent),
        Filed::TooLong => Err(IdlEnd::TooLong),
        Filed::Failed => Err(IdlEnd::ReadFault),
        Filed::NoMemory => Err(IdlEnd::NoMemory),
    }
}
