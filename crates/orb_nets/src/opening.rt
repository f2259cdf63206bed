//! How nets in memory open their slots.
ghost use Rattle.std.specs.Prelude.{◌≡◌, [], Some, drop, slice_index_or, take, MatchResult};
ghost use Rattle.orb_base.specs.MemLinks.{pairs};
ghost use Rattle.orb_nets.specs.MemNets.{slot_pairs};
ghost use Rattle.orb_nets.specs.Nets.{Opens};

use crate::mem_slot::MemSlot;
use orb_base::{Acceptor, List, MemAcceptor, MemSink, MemSource, NoMemory, SteadyAcceptor};
use std::alloc::Global;
use std::collections::LinkedList;

/// What accepts the links of a slot in memory.
pub trait OfSlot: Acceptor<In = MemSource, Out = MemSink> {
    /// The acceptor of the first `each` links of a slot.
    fn of_slot(slot: MemSlot, each: u32) -> Self
        ensures { Self.state result ≡ record { links = Some (take each (pairs slot.links)); faults = 0; ends = 0 } };
}

impl OfSlot for MemAcceptor {
    fn of_slot(slot: MemSlot, each: u32) -> MemAcceptor {
        MemAcceptor::new(slot.links, each, slot.failing)
    }
}

impl OfSlot for SteadyAcceptor {
    fn of_slot(slot: MemSlot, each: u32) -> SteadyAcceptor {
        SteadyAcceptor::new(slot.links, each)
    }
}

/// The next slot; after the last one a slot without links.
fn next_slot(alloc: Global, slots: &mut LinkedList<MemSlot>) -> MemSlot
    ensures first { pairs result.links ≡ slice_index_or (slot_pairs slots.old) 0 [] }
    ensures rest { slot_pairs slots.new ≡ drop 1 (slot_pairs slots.old) }
{
    match slots.pop_front() {
        Some(slot) => slot,
        None => MemSlot {
            links: LinkedList::new(alloc),
            failing: List::new(alloc),
        },
    }
}

/// The acceptors of the next `n` slots, each for at most so many links. Memory is asked for before a slot is opened.
pub fn open<A: OfSlot>(
    alloc: Global,
    slots: &mut LinkedList<MemSlot>,
    n: u8,
    each: u32,
) -> Result<List<A>, NoMemory>
    ensures { MatchResult result
        (λ all. Opens A.state n each (Some (slot_pairs slots.old)) all.items × (slot_pairs slots.new ≡ drop n (slot_pairs slots.old)))
        (λ _. slots.new ≡ slots.old) }
{
    let mut all = match Vec::with_capacity(alloc, usize::from(n)) {
        Ok(all) => all,
        Err(_) => return Err(NoMemory),
    };
    for _nth in 0..n {
        all.push_reserved(A::of_slot(next_slot(alloc, slots), each));
    }
    Ok(List::from_vec(all))
}
