//! What all slots left, taken apart. No memory is taken.
ghost use Rattle.std.specs.Prelude.{◌≡◌, ◌+◌, ◌≤◌, ◌++◌, ◌∷◌, [], length, IfOk};
ghost use Rattle.std.specs.Vec.{vec_capacity};
ghost use Rattle.names_runs.specs.Giving.{hands_of, given_back, conns_of, ends_of};

use crate::job::NamesDone;
use halls::LinkLog;
use link_slots::{SlotDone, SlotEnd};
use names_hall::NamesHand;
use orb_base::NoMemory;
use std::alloc::Global;

/// The parts of what all slots left.
#[derive(Drop)]
pub struct Parts<A, I, O> {
    pub hands: Vec<NamesHand>,
    pub acceptors: Vec<A>,
    pub conns: Vec<LinkLog<I, O>>,
    pub ends: Vec<SlotEnd>,
}

/// No parts, with room for those of so many slots and connections.
pub fn no_parts<A: Drop, I: Drop, O: Drop>(
    alloc: Global,
    slots: usize,
    conns: usize,
) -> Result<Parts<A, I, O>, NoMemory>
    ensures empty { IfOk result (λ p. (p.hands.items ≡ []) × (p.acceptors.items ≡ []) × (p.conns.items ≡ []) × (p.ends.items ≡ [])) }
    ensures room { IfOk result (λ p. (slots ≤ vec_capacity p.hands) × (slots ≤ vec_capacity p.acceptors) × (conns ≤ vec_capacity p.conns)
        × (slots ≤ vec_capacity p.ends)) }
{
    let Ok(hands) = Vec::with_capacity(alloc, slots) else {
        return Err(NoMemory);
    };
    let Ok(acceptors) = Vec::with_capacity(alloc, slots) else {
        return Err(NoMemory);
    };
    let Ok(conns) = Vec::with_capacity(alloc, conns) else {
        return Err(NoMemory);
    };
    let Ok(ends) = Vec::with_capacity(alloc, slots) else {
        return Err(NoMemory);
    };
    Ok(Parts {
        hands,
        acceptors,
        conns,
        ends,
    })
}

/// Puts what one slot left after the parts.
fn put_after<A: Drop, I: Drop, O: Drop>(
    parts: Parts<A, I, O>,
    done: NamesDone<A, I, O>,
) -> Parts<A, I, O>
    requires hands { length parts.hands.items + 1 ≤ vec_capacity parts.hands }
    requires acceptors { length parts.acceptors.items + 1 ≤ vec_capacity parts.acceptors }
    requires conns { length parts.conns.items + length done.logs.items ≤ vec_capacity parts.conns }
    requires ends { length parts.ends.items + 1 ≤ vec_capacity parts.ends }
    ensures hands { (result.hands.items ≡ parts.hands.items ++ done.place ∷ [])
        × (vec_capacity result.hands ≡ vec_capacity parts.hands) }
    ensures acceptors { (result.acceptors.items ≡ parts.acceptors.items ++ done.acceptor ∷ [])
        × (vec_capacity result.acceptors ≡ vec_capacity parts.acceptors) }
    ensures conns { (result.conns.items ≡ parts.conns.items ++ done.logs.items) × (vec_capacity parts.conns ≤ vec_capacity result.conns) }
    ensures ends { (result.ends.items ≡ parts.ends.items ++ done.end ∷ []) × (vec_capacity result.ends ≡ vec_capacity parts.ends) }
{
    let mut parts = parts;
    let SlotDone {
        place: hand,
        acceptor,
        mut logs,
        end,
    } = done;
    parts.hands.push_reserved(hand);
    parts.acceptors.push_reserved(acceptor);
    let Ok(()) = parts.conns.append(&mut logs) else {
        unreachable!()
    };
    parts.ends.push_reserved(end);
    parts
}

/// Takes apart what all slots left, in order.
pub fn take_apart<A: Drop, I: Drop, O: Drop>(
    done: Vec<NamesDone<A, I, O>>,
    none: Parts<A, I, O>,
) -> Parts<A, I, O>
    requires empty { (none.hands.items ≡ []) × (none.acceptors.items ≡ []) × (none.conns.items ≡ []) × (none.ends.items ≡ []) }
    requires room { (length done.items ≤ vec_capacity none.hands) × (length done.items ≤ vec_capacity none.acceptors)
        × (length (conns_of done.items) ≤ vec_capacity none.conns) × (length done.items ≤ vec_capacity none.ends) }
    ensures hands { (result.hands.items ≡ hands_of done.items) × (vec_capacity result.hands ≡ vec_capacity none.hands) }
    ensures acceptors { (result.acceptors.items ≡ given_back done.items) × (vec_capacity result.acceptors ≡ vec_capacity none.acceptors) }
    ensures conns { (result.conns.items ≡ conns_of done.items) × (vec_capacity none.conns ≤ vec_capacity result.conns) }
    ensures ends { (result.ends.items ≡ ends_of done.items) × (vec_capacity result.ends ≡ vec_capacity none.ends) }
{
    let mut before = done;
    match before.pop() {
        None => none,
        Some(last) => put_after(take_apart(before, none), last),
    }
}
