//! Whether the run that goes on takes links, and what wakes the slots that wait for one when it doesn't.

use std::net;
use std::net::{SocketAddr, TcpListener, TcpStream};
use std::sync::atomic::{AtomicU64, Ordering};
use std::time::Duration;

/// How long a link of the server's own may take, in milliseconds.
const PATIENCE: u64 = 20;

/// What all slots of a listener share. A run that closes takes no link: those that wait are the next run's.
#[derive(Drop)]
pub struct RunDoor {
    /// How many slots wait for a link.
    waiting: AtomicU64,
    /// 1 while the run closes.
    closing: AtomicU64,
    /// The ports of the server's own links that no slot has met yet; 0 for none.
    own: [AtomicU64; 16],
}

impl RunDoor {
    /// A door of a run that takes links.
    pub fn new() -> RunDoor {
        RunDoor {
            waiting: AtomicU64::new(0),
            closing: AtomicU64::new(0),
            own: [
                AtomicU64::new(0),
                AtomicU64::new(0),
                AtomicU64::new(0),
                AtomicU64::new(0),
                AtomicU64::new(0),
                AtomicU64::new(0),
                AtomicU64::new(0),
                AtomicU64::new(0),
                AtomicU64::new(0),
                AtomicU64::new(0),
                AtomicU64::new(0),
                AtomicU64::new(0),
                AtomicU64::new(0),
                AtomicU64::new(0),
                AtomicU64::new(0),
                AtomicU64::new(0),
            ],
        }
    }

    /// A run is over, and the next one takes links.
    pub(crate) fn open(&self) {
        self.closing.store(0, Ordering::SeqCst);
    }

    /// Whether the run closes.
    pub(crate) fn is_closing(&self) -> bool {
        self.closing.load(Ordering::SeqCst) != 0
    }

    /// A slot begins to wait. It is to look at `is_closing` after this, since who closes the run looks at who waits after that.
    pub(crate) fn begin_waiting(&self) {
        self.waiting.fetch_add(1, Ordering::SeqCst);
    }

    /// A slot waits no more.
    pub(crate) fn end_waiting(&self) {
        self.waiting.fetch_sub(1, Ordering::SeqCst);
    }

    /// Whether a link that was accepted is one of the server's own, from an address to itself and a port that is noted. Each is met once.
    pub(crate) fn is_own(&self, stream: &TcpStream) -> bool {
        let (Ok(peer), Ok(here)) = (stream.peer_addr(), stream.local_addr()) else {
            return false;
        };
        peer.ip() == here.ip()
            && self
                .own
                .iter()
                .any(|own| is_taken(own, u64::from(peer.port())))
    }
}

/// Takes a port away where it is noted.
fn is_taken(own: &AtomicU64, port: u64) -> bool {
    own.load(Ordering::SeqCst) == port
        && {
            own.store(0, Ordering::SeqCst);
            true
        }
}

/// What closes the door of a run, and wakes the slots that wait.
#[derive(Drop)]
pub(crate) struct DoorCloser<'a, R> {
    system: &'a R,
    at: SocketAddr,
    door: &'a RunDoor,
}

impl<'a, R> DoorCloser<'a, R> {
    /// What wakes those that listen there.
    pub(crate) fn new(system: &'a R, at: SocketAddr, door: &'a RunDoor) -> DoorCloser<'a, R> {
        DoorCloser { system, at, door }
    }

    /// The same, once more.
    pub(crate) fn again(&self) -> DoorCloser<'a, R> {
        DoorCloser::new(self.system, self.at, self.door)
    }

    /// The door.
    pub(crate) fn door(&self) -> &RunDoor {
        self.door
    }
}

impl<'a, R: net::Net<Listener = TcpListener, Stream = TcpStream>> DoorCloser<'a, R> {
    /// Closes the door, unless it is closed, and wakes each slot that waits by a link of the server's own: a waiting accept can't be
    /// given up otherwise.
    pub(crate) fn close(&self) {
        if self.door.closing.swap(1, Ordering::SeqCst) != 0 {
            return;
        }
        for own in &self.door.own {
            if self.door.waiting.load(Ordering::SeqCst) == 0 {
                return;
            }
            if own.load(Ordering::SeqCst) == 0 {
                self.knock(own);
            }
        }
    }

    /// Makes a link of the server's own, and notes its port.
    fn knock(&self, own: &AtomicU64) {
        let patience = Duration::from_millis(PATIENCE);
        if let Ok(stream) = TcpStream::connect_timeout(self.system, &self.at, patience)
            && let Ok(here) = stream.local_addr()
        {
            own.store(u64::from(here.port()), Ordering::SeqCst);
        }
    }
}
