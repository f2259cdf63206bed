//! Links in memory, which are all given.
ghost use Rattle.std.specs.Prelude.{◌≡◌, ◌∷◌, Some, [], take, IfSome, IsNone};
ghost use Rattle.orb_base.specs.MemLinks.{pairs};

use crate::accepted::Accepted;
use crate::acceptor::Acceptor;
use crate::list::List;
use crate::mem_link::MemLink;
use crate::mem_sink::MemSink;
use crate::mem_source::MemSource;
use std::collections::LinkedList;

/// Links in memory, whose accepts fail as it is given.
#[derive(Drop)]
pub struct MemAcceptor {
    steady: SteadyAcceptor,
    failing: List<u64>,
    calls: u64,
    faults: u64,
}

impl MemAcceptor {
    /// The first `most` of these links, in order. The accepts whose numbers, from 0, are in `failing` fail.
    pub fn new(links: LinkedList<MemLink>, most: u32, failing: List<u64>) -> MemAcceptor
        ensures { ⟦<MemAcceptor as Acceptor>⟧.state result
            ≡ record { links = Some (take most (pairs links)); faults = 0; ends = 0 } }
    {
        MemAcceptor {
            steady: SteadyAcceptor::new(links, most),
            failing,
            calls: 0,
            faults: 0,
        }
    }
}

impl Acceptor for MemAcceptor {
    type In = MemSource;

    type Out = MemSink;

    ghost state = { λ a. record {
      links = Some (take a.steady.most (pairs a.steady.links));
      faults = a.faults;
      ends = a.steady.ends;
    } };

    fn accept(&mut self) -> Accepted<MemSource, MemSink> {
        let call = self.calls;
        self.calls = call.saturating_add(1);
        if self.failing.as_slice().contains(&call) {
            self.faults = self.faults.saturating_add(1);
            return Accepted::Failed;
        }
        self.steady.accept()
    }
}

/// Links in memory that never fail to come: the count of faults is the constant 0.
#[derive(Drop)]
pub struct SteadyAcceptor {
    links: LinkedList<MemLink>,
    most: u32,
    ends: u64,
}

impl SteadyAcceptor {
    /// The first `most` of these links, in order.
    pub fn new(links: LinkedList<MemLink>, most: u32) -> SteadyAcceptor
        ensures { ⟦<SteadyAcceptor as Acceptor>⟧.state result
            ≡ record { links = Some (take most (pairs links)); faults = 0; ends = 0 } }
    {
        SteadyAcceptor {
            links,
            most,
            ends: 0,
        }
    }

    /// The next link.
    #[tactic(auto, using(crate::proofs::LinkLaws::first_link))]
    fn next_link(&mut self) -> Option<MemLink>
        ensures some { IfSome result (λ l. take self.old.most (pairs self.old.links)
            ≡ (l.source, l.sink) ∷ take self.new.most (pairs self.new.links)) }
        ensures none { IsNone result → (take self.old.most (pairs self.old.links) ≡ [])
            × (take self.new.most (pairs self.new.links) ≡ []) }
        ensures ends { self.new.ends ≡ self.old.ends }
    {
        if self.most == 0 {
            return None;
        }
        let link = self.links.pop_front()?;
        self.most -= 1;
        Some(link)
    }
}

impl Acceptor for SteadyAcceptor {
    type In = MemSource;

    type Out = MemSink;

    ghost state = { λ a. record {
      links = Some (take a.most (pairs a.links));
      faults = 0;
      ends = a.ends;
    } };

    fn accept(&mut self) -> Accepted<MemSource, MemSink> {
        match self.next_link() {
            Some(MemLink { source, sink }) => Accepted::Link(source, sink),
            None => {
                self.ends = self.ends.saturating_add(1);
                Accepted::Done
            }
        }
    }
}
