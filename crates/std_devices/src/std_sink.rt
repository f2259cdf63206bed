//! A sink over a writer of the standard library.
ghost use Rattle.std.specs.Prelude.{◌≡◌, None};

use orb_base::{Put, Sink};
use std::io::Write;

/// A writer with its count of faults. A write that takes nothing is a fault. It tells no content, since nothing is
/// known of what a real stream took.
#[derive(Drop)]
pub struct StdSink<W: Write + Drop> {
    writer: W,
    faults: u64,
}

impl<W: Write + Drop> StdSink<W> {
    /// A sink over the writer, with its count at 0.
    pub fn new(writer: W) -> StdSink<W>
        ensures { ⟦<StdSink<W> as Sink>⟧.state result ≡ record { held = None; faults = 0 } }
    {
        StdSink { writer, faults: 0 }
    }
}

impl<W: Write + Drop> Sink for StdSink<W> {
    ghost state = { λ s. record { held = None; faults = s.faults } };

    fn write(&mut self, piece: &[u8]) -> Put {
        match self.writer.write(piece) {
            Ok(n) if n > 0 => Put::Took(n),
            _ => {
                self.faults = self.faults.saturating_add(1);
                Put::Failed
            }
        }
    }

    fn close(&mut self) {
        let _ = self.writer.flush();
    }
}
