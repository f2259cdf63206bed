//! Files in memory.
ghost use Rattle.std.specs.Prelude.{◌≡◌, Some, IsTrue};
ghost use Rattle.std.specs.List.{find};
ghost use Rattle.std.specs.Option.{option_copied};
ghost use Rattle.orb_base.specs.Filing.{is_named as is_named_lem};

use crate::files::{Filed, Files};
use crate::list::{List, Octets};
use crate::text::Text;
use std::marker::Model;

/// A file in memory.
#[derive(Drop)]
pub struct MemFile {
    pub name: Text,
    pub bytes: Octets,
}

impl Model for MemFile {
    ghost use Rattle.orb_base.specs.Filing.{File};

    ghost Value = { File };

    ghost view = { λ f. record { name = f.name; bytes = f.bytes.items } };
}

impl MemFile {
    fn is_named(&self, name: &Text) -> bool
        ensures { result ≡ is_named_lem name.now self.now }
    {
        self.name == *name
    }

    fn content(&self) -> &[u8]
        ensures { result.now ≡ self.now.bytes }
    {
        self.bytes.as_slice()
    }
}

/// Files in memory, whose reads fail as it is given.
#[derive(Drop)]
pub struct MemFiles {
    steady: SteadyFiles,
    failing: List<u64>,
    calls: u64,
    faults: u64,
}

impl MemFiles {
    /// A store of these files, of which the first of each name counts. The reads whose numbers, from 0, are in
    /// `failing` fail.
    pub fn new(files: List<MemFile>, failing: List<u64>) -> MemFiles
        ensures { ⟦<MemFiles as Files>⟧.state result ≡ record { files = Some files.items; faults = 0 } }
    {
        MemFiles {
            steady: SteadyFiles::new(files),
            failing,
            calls: 0,
            faults: 0,
        }
    }
}

impl Files for MemFiles {
    ghost state = { λ s. record { files = Some s.steady.files.items; faults = s.faults } };

    fn read(&mut self, name: &Text, limit: usize, into: &mut Octets) -> Filed {
        let call = self.calls;
        self.calls = call.saturating_add(1);
        if self.failing.as_slice().contains(&call) {
            into.clear();
            self.faults = self.faults.saturating_add(1);
            return Filed::Failed;
        }
        self.steady.read(name, limit, into)
    }
}

/// Files in memory that can always be read: the count of faults is the constant 0.
#[derive(Drop)]
pub struct SteadyFiles {
    files: List<MemFile>,
}

impl SteadyFiles {
    /// A store of these files, of which the first of each name counts.
    pub fn new(files: List<MemFile>) -> SteadyFiles
        ensures { ⟦<SteadyFiles as Files>⟧.state result ≡ record { files = Some files.items; faults = 0 } }
    {
        SteadyFiles { files }
    }
}

impl Files for SteadyFiles {
    ghost state = { λ s. record { files = Some s.files.items; faults = 0 } };

    fn read(&mut self, name: &Text, limit: usize, into: &mut Octets) -> Filed {
        into.clear();
        match find_file(self.files.as_slice(), name) {
            None => Filed::Absent,
            Some(file) if file.content().len() > limit => Filed::TooLong,
            Some(file) => match into.append(file.content()) {
                Ok(()) => Filed::Whole,
                Err(_) => Filed::NoMemory,
            },
        }
    }
}

/// The first file of this name.
fn find_file<'a>(files: &'a [MemFile], name: &Text) -> Option<&'a MemFile>
    ensures { option_copied result ≡ find (is_named_lem name.now) files.now }
{
    files.iter().find(|file| file.is_named(name))
}
