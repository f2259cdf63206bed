//! What no clause says: each public call once with ample memory, through the bound, and which calls fail.
use orb_base::{
    Accepted, Acceptor, Got, List, MemLink, MemSink, MemSource, Octets, Put, Sink, Source, Text,
};
use orb_nets::*;
use std::alloc::Global;
use std::collections::LinkedList;

fn numbers(alloc: Global, all: &[u64]) -> Option<List<u64>> {
    match Vec::from_slice(alloc, all) {
        Ok(all) => Some(List::from_vec(all)),
        Err(_) => None,
    }
}

/// A link by which these bytes come.
fn link(alloc: Global, bytes: Octets) -> MemLink {
    MemLink::new(
        MemSource::new(bytes, List::new(alloc), List::new(alloc)),
        MemSink::new(alloc, List::new(alloc), List::new(alloc)),
    )
}

/// Puts a link by which these bytes come after the others; whether there was memory.
fn add_link(alloc: Global, links: &mut LinkedList<MemLink>, bytes: &[u8]) -> bool {
    match Vec::from_slice(alloc, bytes) {
        Ok(bytes) => links.push_back(link(alloc, List::from_vec(bytes))).is_ok(),
        Err(_) => false,
    }
}

fn add_links(alloc: Global, links: &mut LinkedList<MemLink>, all: &[&[u8]]) -> bool {
    for bytes in all {
        if !add_link(alloc, links, bytes) {
            return false;
        }
    }
    true
}

/// Links by which these bytes come.
fn links(alloc: Global, all: &[&[u8]]) -> Option<LinkedList<MemLink>> {
    let mut links = LinkedList::new(alloc);
    if add_links(alloc, &mut links, all) {
        Some(links)
    } else {
        None
    }
}

/// A slot with links, the accepts of which fail that have these numbers.
fn slot(alloc: Global, all: &[&[u8]], failing: &[u64]) -> Option<MemSlot> {
    let failing = numbers(alloc, failing)?;
    match links(alloc, all) {
        Some(links) => Some(MemSlot { links, failing }),
        None => None,
    }
}

fn add_slot(
    alloc: Global,
    slots: &mut LinkedList<MemSlot>,
    all: &[&[u8]],
    failing: &[u64],
) -> bool {
    match slot(alloc, all, failing) {
        Some(slot) => slots.push_back(slot).is_ok(),
        None => false,
    }
}

/// Two slots, with three links and with one; at the second one the accept of number 0 fails.
fn slots(alloc: Global) -> Option<LinkedList<MemSlot>> {
    let mut slots = LinkedList::new(alloc);
    let is_made = add_slot(alloc, &mut slots, &[b"abc", b"def", b"ghi"], &[])
        && add_slot(alloc, &mut slots, &[b"jkl"], &[0]);
    if is_made { Some(slots) } else { None }
}

/// What a call gives: the first bytes of a link, no link, or a fault.
#[derive(Clone, Copy)]
enum Gives {
    Link(&'static [u8]),
    Done,
    Failed,
}

/// Whether a link that was given is this one. It is read from and written to.
fn is_link<I: Source + Drop, O: Sink + Drop>(source: I, sink: O, want: Gives) -> bool {
    let mut source = source;
    let mut sink = sink;
    let mut into = [b'-'; 3];
    let _got: Got = source.read(&mut into);
    let _put: Put = sink.write(b"xyz");
    sink.close();
    match want {
        Gives::Link(bytes) => into.as_slice() == bytes,
        _ => false,
    }
}

fn is_refused(fault: NetFault, want: Gives) -> bool {
    match fault {
        NetFault::Failed => matches!(want, Gives::Failed),
        NetFault::NoMemory => false,
    }
}

/// Whether a connect gives this.
fn connects<N: Net>(net: &mut N, host: &Text, want: Gives) -> bool {
    match net.connect(host, 2809) {
        Ok((source, sink)) => is_link(source, sink, want),
        Err(fault) => is_refused(fault, want),
    }
}

/// Whether an accept gives this.
fn accepts<A: Acceptor>(acceptor: &mut A, want: Gives) -> bool {
    match acceptor.accept() {
        Accepted::Link(source, sink) => is_link(source, sink, want),
        Accepted::Done => matches!(want, Gives::Done),
        Accepted::Failed => matches!(want, Gives::Failed),
    }
}

/// Whether as many accepts give these, in order.
fn accepts_each<A: Acceptor>(acceptor: &mut A, want: &[Gives]) -> bool {
    for gives in want {
        if !accepts(acceptor, *gives) {
            return false;
        }
    }
    true
}

/// What a listen with two slots of at most two links each gives: a fault, or what three accepts give at each of them, one after the other.
#[derive(Clone, Copy)]
enum Listened {
    Refused(Gives),
    Opened(&'static [Gives], &'static [Gives]),
}

/// Whether there are two acceptors, and they give these.
fn both_accept<A: Acceptor>(acceptors: &mut [A], first: &[Gives], second: &[Gives]) -> bool {
    match acceptors {
        [a, b] => accepts_each(a, first) && accepts_each(b, second),
        _ => false,
    }
}

fn is_opened<A: Acceptor + Drop>(acceptors: List<A>, want: Listened) -> bool {
    let mut acceptors = acceptors.into_vec();
    match want {
        Listened::Opened(first, second) => { both_accept(acceptors.as_mut_slice(), first, second) }
        Listened::Refused(_) => false,
    }
}

fn listens<N: Net>(net: &mut N, host: &Text, want: Listened) -> bool {
    match net.listen(host, 2809, 2, 2) {
        Ok(acceptors) => is_opened(acceptors, want),
        Err(fault) => match want {
            Listened::Refused(gives) => is_refused(fault, gives),
            Listened::Opened(..) => false,
        },
    }
}

/// The first and the third listen fail.
const LISTENED: &[Listened] = &[
    Listened::Refused(Gives::Failed),
    Listened::Opened(
        &[Gives::Link(b"abc"), Gives::Link(b"def"), Gives::Done],
        &[Gives::Failed, Gives::Link(b"jkl"), Gives::Done],
    ),
    Listened::Refused(Gives::Failed),
    Listened::Opened(
        &[Gives::Done, Gives::Done, Gives::Done],
        &[Gives::Done, Gives::Done, Gives::Done],
    ),
];

fn listens_each(net: &mut MemNet, host: &Text) -> bool {
    for want in LISTENED {
        if !listens(net, host, *want) {
            return false;
        }
    }
    true
}

fn opening_net(alloc: Global) -> Option<MemNet> {
    let failing = numbers(alloc, &[0, 2])?;
    match slots(alloc) {
        Some(slots) => Some(MemNet::new(alloc, slots, LinkedList::new(alloc), failing)),
        None => None,
    }
}

fn opens_in_order(alloc: Global, host: &Text) -> bool {
    match opening_net(alloc) {
        Some(mut net) => listens_each(&mut net, host),
        None => false,
    }
}

/// Which of these nets in memory is asked.
#[derive(Clone, Copy)]
enum Asked {
    Opening,
    Connecting,
    Steady,
}

fn holds_at(alloc: Global, asked: Asked, host: &Text) -> bool {
    match asked {
        Asked::Opening => opens_in_order(alloc, host),
        Asked::Connecting => connects_in_order(alloc, host),
        Asked::Steady => never_fails(alloc, host),
    }
}

fn holds(alloc: Global, asked: Asked) -> bool {
    match Text::new(alloc, b"localhost") {
        Ok(host) => holds_at(alloc, asked, &host),
        Err(_) => false,
    }
}

#[test]
fn slots_are_opened_in_order(rt: HostRuntime) {
    assert!(rt; holds(rt.alloc(), Asked::Opening));
}

/// The second connect fails, and so does the one without a peer.
const CONNECTS: &[Gives] = &[
    Gives::Link(b"abc"),
    Gives::Failed,
    Gives::Link(b"def"),
    Gives::Failed,
];

fn connects_each(net: &mut MemNet, host: &Text) -> bool {
    for want in CONNECTS {
        if !connects(net, host, *want) {
            return false;
        }
    }
    true
}

fn connecting_net(alloc: Global) -> Option<MemNet> {
    let failing = numbers(alloc, &[1])?;
    match links(alloc, &[b"abc", b"def"]) {
        Some(peers) => Some(MemNet::new(alloc, LinkedList::new(alloc), peers, failing)),
        None => None,
    }
}

fn connects_in_order(alloc: Global, host: &Text) -> bool {
    match connecting_net(alloc) {
        Some(mut net) => connects_each(&mut net, host),
        None => false,
    }
}

#[test]
fn peers_are_connected_in_order(rt: HostRuntime) {
    assert!(rt; holds(rt.alloc(), Asked::Connecting));
}

const STEADY: Listened = Listened::Opened(
    &[Gives::Link(b"abc"), Gives::Link(b"def"), Gives::Done],
    &[Gives::Link(b"jkl"), Gives::Done, Gives::Done],
);

fn never_fails(alloc: Global, host: &Text) -> bool {
    match slots(alloc) {
        Some(slots) => {
            let mut net = SteadyNet::new(alloc, slots);
            listens(&mut net, host, STEADY) && connects(&mut net, host, Gives::Link(b"---"))
        }
        None => false,
    }
}

#[test]
fn steady_net_never_fails(rt: HostRuntime) {
    assert!(rt; holds(rt.alloc(), Asked::Steady));
}
