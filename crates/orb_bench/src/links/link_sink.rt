//! The writing half of the link.
ghost use Rattle.std.specs.Prelude.{None};

use orb_base::{Put, Sink};
use std::io::Write;
use std::net::{Shutdown, TcpStream};

/// A stream with its count of faults. A close ends it in both directions, so that who reads it ends too.
#[derive(Drop)]
pub struct LinkSink {
    pub stream: TcpStream,
    pub faults: u64,
}

impl Sink for LinkSink {
    ghost state = { λ s. record { held = None; faults = s.faults } };

    fn write(&mut self, piece: &[u8]) -> Put {
        match self.stream.write(piece) {
            Ok(n) if n > 0 => Put::Took(n),
            _ => {
                self.faults = self.faults.saturating_add(1);
                Put::Failed
            }
        }
    }

    fn close(&mut self) {
        let _ = self.stream.shutdown(Shutdown::Both);
    }
}
