//! A store of files over the file system.
ghost use Rattle.std.specs.Prelude.{◌≡◌, ◌≤◌, None, [], length};
ghost use Rattle.system_devices.specs.Filling.{Fills};

use orb_base::{Filed, Files, Octets, Text};
use std::alloc::Global;
use std::{fs, io, rt};
use std_devices::StdSource;
use text_streams::{ReadAll, read_all};

/// The files of a file system, by their paths from the working directory, with the count of faults. It tells no content, since
/// nothing is known of what a real file holds.
#[derive(Drop)]
pub struct StdFiles<'a, R: rt::Files> {
    system: &'a R,
    alloc: Global,
    faults: u64,
}

impl<'a, R: rt::Files> StdFiles<'a, R> {
    /// A store over the file system, with its count at 0.
    pub fn new(system: &'a R, alloc: Global) -> StdFiles<'a, R>
        ensures { ⟦<StdFiles<'a, R> as Files>⟧.state result ≡ record { files = None; faults = 0 } }
    {
        StdFiles {
            system,
            alloc,
            faults: 0,
        }
    }
}

impl<'a, R: rt::Files> Files for StdFiles<'a, R> {
    ghost state = { λ s. record { files = None; faults = s.faults } };

    fn read(&mut self, name: &Text, limit: usize, into: &mut Octets) -> Filed {
        into.clear();
        let filed = fill(self.system, self.alloc, name, limit, into);
        if filed == Filed::Failed {
            self.faults = self.faults.saturating_add(1);
        }
        filed
    }
}

/// Reads the file of a name into an empty list. A name that isn't UTF-8 is that of no file; a folder is opened, and then can't be
/// read. At most one byte beyond the limit is taken.
fn fill<R: rt::Files>(
    system: &R,
    alloc: Global,
    name: &Text,
    limit: usize,
    into: &mut Octets,
) -> Filed
    requires { into.old.items ≡ [] }
    ensures { Fills result limit into.new.items }
{
    let Ok(path) = str::from_utf8(name.as_slice()) else {
        return Filed::Absent;
    };
    match fs::open(system, path) {
        Ok(file) => match read_all(alloc, limit, &mut StdSource::new(file)) {
            ReadAll::Whole(bytes) => {
                *into = bytes;
                Filed::Whole
            }
            ReadAll::TooLong => Filed::TooLong,
            ReadAll::Failed(_) => Filed::Failed,
            ReadAll::NoMemory => Filed::NoMemory,
        },
        Err(fault) => unopened(&fault),
    }
}

/// What a path that can't be opened is: where there is no such file, that is told apart from every other fault.
fn unopened(fault: &io::Error) -> Filed {
    match fault.kind() {
        io::ErrorKind::NotFound | io::ErrorKind::NotADirectory => Filed::Absent,
        io::ErrorKind::OutOfMemory => Filed::NoMemory,
        _ => Filed::Failed,
    }
}
