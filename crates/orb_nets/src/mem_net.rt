//! Nets in memory, which tell what they were asked and what they reach.
ghost use Rattle.std.specs.Prelude.{◌≡◌, ◌≤◌, [], ◌∷◌, ◌++◌, Some, None};
ghost use Rattle.orb_base.specs.Outside.{Rose};
ghost use Rattle.orb_base.specs.MemLinks.{pairs};
ghost use Rattle.orb_nets.specs.MemNets.{slot_pairs};

use crate::history::History;
use crate::mem_slot::MemSlot;
use crate::net::Net;
use crate::net_fault::NetFault;
use crate::opening::open;
use crate::wanted::Wanted;
use orb_base::{List, MemAcceptor, MemLink, MemSink, MemSource, NoMemory, SteadyAcceptor, Text};
use std::alloc::Global;
use std::collections::LinkedList;

/// A net in memory, whose calls fail as it is given. A connect fails also where no peer is left.
#[derive(Drop)]
pub struct MemNet {
    slots: LinkedList<MemSlot>,
    peers: LinkedList<MemLink>,
    failing: List<u64>,
    alloc: Global,
    calls: u64,
    faults: u64,
    history: History,
}

impl MemNet {
    /// A net whose listens open these slots, in order, and after the last one slots without links, and whose connects
    /// give the links to these peers, in order. The calls whose numbers, from 0, are in `failing` fail.
    pub fn new(
        alloc: Global,
        slots: LinkedList<MemSlot>,
        peers: LinkedList<MemLink>,
        failing: List<u64>,
    ) -> MemNet
        ensures { ⟦<MemNet as Net>⟧.state result
            ≡ record { asked = Some []; slots = Some (slot_pairs slots); peers = Some (pairs peers); faults = 0 } }
    {
        MemNet {
            slots,
            peers,
            failing,
            alloc,
            calls: 0,
            faults: 0,
            history: History::new(),
        }
    }

    /// Notes a call, and answers whether it is to fail.
    fn fails(&mut self, host: &Text, wanted: Wanted) -> bool
        ensures asked { self.new.history ≡ self.old.history ++ record { host = host.now; port = wanted.port; slots = wanted.slots } ∷ [] }
        ensures kept { (self.new.slots ≡ self.old.slots) × (self.new.peers ≡ self.old.peers) × (self.new.faults ≡ self.old.faults) }
    {
        self.history = self.history.and(host, wanted);
        let call = self.calls;
        self.calls = call.saturating_add(1);
        self.failing.as_slice().contains(&call)
    }

    /// Counts a fault.
    fn fault(&mut self) -> NetFault
        ensures fault { result ≡ NetFault.Failed }
        ensures counted { (self.old.faults ≤ self.new.faults) × Rose self.old.faults self.new.faults }
        ensures kept { (self.new.slots ≡ self.old.slots) × (self.new.peers ≡ self.old.peers) × (self.new.history ≡ self.old.history) }
    {
        self.faults = self.faults.saturating_add(1);
        NetFault::Failed
    }
}

impl Net for MemNet {
    type In = MemSource;

    type Out = MemSink;

    type Acc = MemAcceptor;

    ghost state = { λ n. record {
      asked = Some n.history;
      slots = Some (slot_pairs n.slots);
      peers = Some (pairs n.peers);
      faults = n.faults;
    } };

    fn listen(
        &mut self,
        host: &Text,
        port: u16,
        slots: u8,
        each: u32,
    ) -> Result<List<MemAcceptor>, NetFault> {
        let wanted = Wanted {
            port,
            slots: Some((slots, each)),
        };
        if self.fails(host, wanted) {
            return Err(self.fault());
        }
        match open(self.alloc, &mut self.slots, slots, each) {
            Ok(all) => Ok(all),
            Err(NoMemory) => Err(NetFault::NoMemory),
        }
    }

    fn connect(&mut self, host: &Text, port: u16) -> Result<(MemSource, MemSink), NetFault> {
        if self.fails(host, Wanted { port, slots: None }) {
            return Err(self.fault());
        }
        match self.peers.pop_front() {
            Some(MemLink { source, sink }) => Ok((source, sink)),
            None => Err(self.fault()),
        }
    }
}

/// A net in memory that never fails: the count of faults is the constant 0, and so are those of its acceptors. It tells
/// what it was asked and its slots. It tells no peers, since a list of them would come to an end: each connect gives the
/// link of a peer that has sent nothing and has closed.
#[derive(Drop)]
pub struct SteadyNet {
    slots: LinkedList<MemSlot>,
    alloc: Global,
    history: History,
}

impl SteadyNet {
    /// A net whose listens open these slots, in order, and after the last one slots without links. No accept fails.
    pub fn new(alloc: Global, slots: LinkedList<MemSlot>) -> SteadyNet
        ensures { ⟦<SteadyNet as Net>⟧.state result
            ≡ record { asked = Some []; slots = Some (slot_pairs slots); peers = None; faults = 0 } }
    {
        SteadyNet {
            slots,
            alloc,
            history: History::new(),
        }
    }
}

impl Net for SteadyNet {
    type In = MemSource;

    type Out = MemSink;

    type Acc = SteadyAcceptor;

    ghost state = { λ n. record {
      asked = Some n.history;
      slots = Some (slot_pairs n.slots);
      peers = None;
      faults = 0;
    } };

    fn listen(
        &mut self,
        host: &Text,
        port: u16,
        slots: u8,
        each: u32,
    ) -> Result<List<SteadyAcceptor>, NetFault> {
        let wanted = Wanted {
            port,
            slots: Some((slots, each)),
        };
        self.history = self.history.and(host, wanted);
        match open(self.alloc, &mut self.slots, slots, each) {
            Ok(all) => Ok(all),
            Err(NoMemory) => Err(NetFault::NoMemory),
        }
    }

    fn connect(&mut self, host: &Text, port: u16) -> Result<(MemSource, MemSink), NetFault> {
        self.history = self.history.and(host, Wanted { port, slots: None });
        let nothing = List::new(self.alloc);
        let source = MemSource::new(nothing, List::new(self.alloc), List::new(self.alloc));
        let sink = MemSink::new(self.alloc, List::new(self.alloc), List::new(self.alloc));
        Ok((source, sink))
    }
}
