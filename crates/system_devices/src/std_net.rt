//! A net over the sockets of the system.
ghost use Rattle.std.specs.Prelude.{◌≡◌, ◌≤◌, All, None, IfOk, length};
ghost use Rattle.orb_base.specs.Outside.{IsNewSource, IsNewSink, Rose};

use crate::run_door::{DoorCloser, RunDoor};
use crate::std_links::{Fresh, LinkSink, LinkSource, StdAcceptor};
use orb_base::{List, Sink, Source, Text};
use orb_nets::{Net, NetFault};
use std::alloc::Global;
use std::net;
use std::net::{TcpListener, TcpStream};

/// The sockets of a system, with the count of faults. It says nothing of what it was asked and of what it reaches.
#[derive(Drop)]
pub struct StdNet<'a, R> {
    system: &'a R,
    alloc: Global,
    /// What the slots of its listeners share.
    door: &'a RunDoor,
    faults: u64,
}

impl<'a, R: net::Net<Listener = TcpListener, Stream = TcpStream> + Sync> StdNet<'a, R> {
    /// A net over the system's sockets, with its count at 0, whose slots share this door.
    pub fn new(system: &'a R, alloc: Global, door: &'a RunDoor) -> StdNet<'a, R>
        ensures { ⟦<StdNet<'a, R> as Net>⟧.state result ≡ record { asked = None; slots = None; peers = None; faults = 0 } }
    {
        StdNet {
            system,
            alloc,
            door,
            faults: 0,
        }
    }
}

impl<'a, R: net::Net<Listener = TcpListener, Stream = TcpStream>> StdNet<'a, R> {
    /// What listens at a host and a port, and what closes the door of a run there. None where the system refuses.
    fn listener_at(&self, host: &Text, port: u16) -> Option<(TcpListener, DoorCloser<'a, R>)> {
        let listener = bind(self.system, host, port)?;
        let at = listener.local_addr().ok()?;
        let closer = DoorCloser::new(self.system, at, self.door);
        Some((listener, closer))
    }

    /// A share of the listener for each slot, with its counts at 0.
    fn shares(
        &self,
        listener: &TcpListener,
        closer: &DoorCloser<'a, R>,
        slots: u8,
        each: u32,
    ) -> Result<List<StdAcceptor<'a, R>>, NetFault>
        ensures { IfOk result (λ all. (length all.items ≡ slots) × All (λ a. (a.faults ≡ 0) × (a.ends ≡ 0)) all.items) }
    {
        let Ok(mut all) = Vec::with_capacity(self.alloc, usize::from(slots)) else {
            return Err(NetFault::NoMemory);
        };
        for _nth in 0..slots {
            let Ok(share) = listener.try_clone() else {
                return Err(NetFault::Failed);
            };
            all.push_reserved(StdAcceptor::new(self.alloc, share, closer.again(), each));
        }
        Ok(List::from_vec(all))
    }

    /// Counts a fault.
    fn fault(&mut self) -> NetFault
        ensures fault { result ≡ NetFault.Failed }
        ensures counted { (self.old.faults ≤ self.new.faults) × Rose self.old.faults self.new.faults }
    {
        self.faults = self.faults.saturating_add(1);
        NetFault::Failed
    }
}

/// What listens at a host and a port. None where the system refuses, and where the host isn't UTF-8.
fn bind<R: net::Net<Listener = TcpListener, Stream = TcpStream>>(
    system: &R,
    host: &Text,
    port: u16,
) -> Option<TcpListener> {
    let host = str::from_utf8(host.as_slice()).ok()?;
    TcpListener::bind(system, (host, port)).ok()
}

/// Connects to a host and a port.
fn connect<'a, R: net::Net<Listener = TcpListener, Stream = TcpStream>>(
    system: &'a R,
    alloc: Global,
    host: &Text,
    port: u16,
) -> Result<(LinkSource, LinkSink<'a, R>), NetFault>
    ensures source { IfOk result (λ link. IsNewSource (⟦<LinkSource as Source>⟧.state link.0)) }
    ensures sink { IfOk result (λ link. IsNewSink (⟦<LinkSink<'a, R> as Sink>⟧.state link.1)) }
{
    let Ok(host) = str::from_utf8(host.as_slice()) else {
        return Err(NetFault::Failed);
    };
    match TcpStream::connect(system, (host, port)) {
        Ok(stream) => match Fresh::new(alloc, stream) {
            Some(fresh) => Ok(fresh.halves(None)),
            None => Err(NetFault::Failed),
        },
        Err(_) => Err(NetFault::Failed),
    }
}

impl<'a, R: net::Net<Listener = TcpListener, Stream = TcpStream> + Sync> Net for StdNet<'a, R> {
    type In = LinkSource;

    type Out = LinkSink<'a, R>;

    type Acc = StdAcceptor<'a, R>;

    ghost state = { λ n. record { asked = None; slots = None; peers = None; faults = n.faults } };

    fn listen(
        &mut self,
        host: &Text,
        port: u16,
        slots: u8,
        each: u32,
    ) -> Result<List<StdAcceptor<'a, R>>, NetFault> {
        let Some((listener, closer)) = self.listener_at(host, port) else {
            return Err(self.fault());
        };
        match self.shares(&listener, &closer, slots, each) {
            Ok(all) => Ok(all),
            Err(NetFault::Failed) => Err(self.fault()),
            Err(NetFault::NoMemory) => Err(NetFault::NoMemory),
        }
    }

    fn connect(
        &mut self,
        host: &Text,
        port: u16,
    ) -> Result<(LinkSource, LinkSink<'a, R>), NetFault> {
        match connect(self.system, self.alloc, host, port) {
            Ok(link) => Ok(link),
            Err(NetFault::Failed) => Err(self.fault()),
            Err(NetFault::NoMemory) => Err(NetFault::NoMemory),
        }
    }
}
