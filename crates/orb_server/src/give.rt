//! What all slots left, taken apart. No memory is taken.
ghost use Rattle.std.specs.Prelude.{◌≡◌, ◌+◌, ◌≤◌, ◌++◌, ◌∷◌, [], length, IfOk};
ghost use Rattle.std.specs.Vec.{vec_capacity};
ghost use Rattle.orb_server.specs.Giving.{passes_of, given_back, conns_of, ends_of};

use crate::job::PoolDone;
use crate::run::ConnLog;
use lane_pool::SlotPass;
use link_slots::{SlotDone, SlotEnd};
use orb_base::NoMemory;
use std::alloc::Global;

/// The parts of what all slots left.
#[derive(Drop)]
pub struct Parts<A, I, O> {
    pub passes: Vec<SlotPass>,
    pub acceptors: Vec<A>,
    pub conns: Vec<ConnLog<I, O>>,
    pub ends: Vec<SlotEnd>,
}

/// No parts, with room for those of so many slots and connections.
pub fn no_parts<A: Drop, I: Drop, O: Drop>(
    alloc: Global,
    slots: usize,
    conns: usize,
) -> Result<Parts<A, I, O>, NoMemory>
    ensures empty { IfOk result (λ p. (p.passes.items ≡ []) × (p.acceptors.items ≡ []) × (p.conns.items ≡ []) × (p.ends.items ≡ [])) }
    ensures room { IfOk result (λ p. (slots ≤ vec_capacity p.passes) × (slots ≤ vec_capacity p.acceptors) × (conns ≤ vec_capacity p.conns)
        × (slots ≤ vec_capacity p.ends)) }
{
    let Ok(passes) = Vec::with_capacity(alloc, slots) else {
        return Err(NoMemory);
    };
    let Ok(acceptors) = Vec::with_capacity(alloc, slots) else {
        return Err(NoMemory);
    };
    let Ok(conns) = Vec::with_capacity(alloc, conns) else {
        return Err(NoMemory);
    };
    let Ok(ends) = Vec::with_capacity(alloc, slots) else {
        return Err(NoMemory);
    };
    Ok(Parts {
        passes,
        acceptors,
        conns,
        ends,
    })
}

/// Puts what one slot left after the parts.
fn put_behind<A: Drop, I: Drop, O: Drop>(
    parts: Parts<A, I, O>,
    done: PoolDone<A, I, O>,
) -> Parts<A, I, O>
    requires passes { length parts.passes.items + 1 ≤ vec_capacity parts.passes }
    requires acceptors { length parts.acceptors.items + 1 ≤ vec_capacity parts.acceptors }
    requires conns { length parts.conns.items + length done.logs.items ≤ vec_capacity parts.conns }
    requires ends { length parts.ends.items + 1 ≤ vec_capacity parts.ends }
    ensures passes { (result.passes.items ≡ parts.passes.items ++ done.place ∷ [])
        × (vec_capacity result.passes ≡ vec_capacity parts.passes) }
    ensures acceptors { (result.acceptors.items ≡ parts.acceptors.items ++ done.acceptor ∷ [])
        × (vec_capacity result.acceptors ≡ vec_capacity parts.acceptors) }
    ensures conns { (result.conns.items ≡ parts.conns.items ++ done.logs.items) × (vec_capacity parts.conns ≤ vec_capacity result.conns) }
    ensures ends { (result.ends.items ≡ parts.ends.items ++ done.end ∷ []) × (vec_capacity result.ends ≡ vec_capacity parts.ends) }
{
    let mut parts = parts;
    let SlotDone {
        place: pass,
        acceptor,
        mut logs,
        end,
    } = done;
    parts.passes.push_reserved(pass);
    parts.acceptors.push_reserved(acceptor);
    let Ok(()) = parts.conns.append(&mut logs) else {
        unreachable!()
    };
    parts.ends.push_reserved(end);
    parts
}

/// Takes apart what all slots left, in order.
pub fn take_apart<A: Drop, I: Drop, O: Drop>(
    done: Vec<PoolDone<A, I, O>>,
    none: Parts<A, I, O>,
) -> Parts<A, I, O>
    requires empty { (none.passes.items ≡ []) × (none.acceptors.items ≡ []) × (none.conns.items ≡ []) × (none.ends.items ≡ []) }
    requires room { (length done.items ≤ vec_capacity none.passes) × (length done.items ≤ vec_capacity none.acceptors)
        × (length (conns_of done.items) ≤ vec_capacity none.conns) × (length done.items ≤ vec_capacity none.ends) }
    ensures passes { (result.passes.items ≡ passes_of done.items) × (vec_capacity result.passes ≡ vec_capacity none.passes) }
    ensures acceptors { (result.acceptors.items ≡ given_back done.items) × (vec_capacity result.acceptors ≡ vec_capacity none.acceptors) }
    ensures conns { (result.conns.items ≡ conns_of done.items) × (vec_capacity none.conns ≤ vec_capacity result.conns) }
    ensures ends { (result.ends.items ≡ ends_of done.items) × (vec_capacity result.ends ≡ vec_capacity none.ends) }
{
    let mut before = done;
    match before.pop() {
        None => none,
        Some(last) => put_behind(take_apart(before, none), last),
    }
}
