//! A source over a reader of the standard library.
ghost use Rattle.std.specs.Prelude.{◌≡◌, None};

use orb_base::{Got, Source};
use std::io::Read;

/// A reader with its counts. It tells no content, since nothing is known of what a real stream holds.
#[derive(Drop)]
pub struct StdSource<R: Read + Drop> {
    reader: R,
    faults: u64,
    ends: u64,
}

impl<R: Read + Drop> StdSource<R> {
    /// A source over the reader, with its counts at 0.
    pub fn new(reader: R) -> StdSource<R>
        ensures { ⟦<StdSource<R> as Source>⟧.state result ≡ record { left = None; taken = None; faults = 0; ends = 0 } }
    {
        StdSource {
            reader,
            faults: 0,
            ends: 0,
        }
    }
}

impl<R: Read + Drop> Source for StdSource<R> {
    ghost state = { λ s. record { left = None; taken = None; faults = s.faults; ends = s.ends } };

    fn read(&mut self, into: &mut [u8]) -> Got {
        match self.reader.read(into) {
            Ok(0) => {
                self.ends = self.ends.saturating_add(1);
                Got::End
            }
            Ok(n) => Got::Bytes(n),
            Err(_) => {
                self.faults = self.faults.saturating_add(1);
                Got::Failed
            }
        }
    }
}
