//! A slot with ample memory, over links in memory: how many are served, and how it comes out.
use link_slots::*;
use orb_base::{List, MemAcceptor, MemLink, MemSink, MemSource};
use std::alloc::Global;
use std::collections::LinkedList;
use std::test::*;

/// A slot: how many links come, which accepts fail, how many may be served, and the number of the link that closes it; then which
/// links were served, and how it came out.
struct Row {
    links: u8,
    failing: &'static [u64],
    most: u8,
    last: u8,
    served: &'static [u8],
    end: SlotEnd,
}

const ROWS: &[Row] = &[
    Row {
        links: 3,
        failing: &[],
        most: 5,
        last: 9,
        served: &[0, 1, 2],
        end: SlotEnd::Done,
    },
    Row {
        links: 3,
        failing: &[],
        most: 2,
        last: 9,
        served: &[0, 1],
        end: SlotEnd::Served,
    },
    Row {
        links: 3,
        failing: &[],
        most: 5,
        last: 1,
        served: &[0, 1],
        end: SlotEnd::Closed,
    },
    Row {
        links: 3,
        failing: &[1],
        most: 5,
        last: 9,
        served: &[0],
        end: SlotEnd::AcceptFault,
    },
    Row {
        links: 1,
        failing: &[],
        most: 1,
        last: 0,
        served: &[0],
        end: SlotEnd::Closed,
    },
    Row {
        links: 1,
        failing: &[],
        most: 0,
        last: 9,
        served: &[],
        end: SlotEnd::Served,
    },
];

/// So many links by which nothing comes.
fn links_of(alloc: Global, count: u8) -> Option<LinkedList<MemLink>> {
    let mut links = LinkedList::new(alloc);
    for _ in 0..count {
        let source = MemSource::new(List::new(alloc), List::new(alloc), List::new(alloc));
        let sink = MemSink::new(alloc, List::new(alloc), List::new(alloc));
        links.push_back(MemLink::new(source, sink)).ok()?;
    }
    Some(links)
}

/// What the slot of a row left.
fn run_row(alloc: Global, row: &Row) -> Option<SlotDone<MemAcceptor, u64, u8>> {
    let links = links_of(alloc, row.links)?;
    let failing = List::from_vec(Vec::from_slice(alloc, row.failing).ok()?);
    let logs = Vec::with_capacity(alloc, usize::from(row.most)).ok()?;
    let job = SlotJob {
        place: 0,
        acceptor: MemAcceptor::new(links, 8, failing),
        logs,
    };
    let last = row.last;
    let serve = move |link: LinkJob<u64, MemSource, MemSink>| -> LinkDone<u64, u8> {
        LinkDone {
            place: link.place.wrapping_add(1),
            log: link.nth,
            closes: link.nth == last,
        }
    };
    let host = LinkHost {
        most: row.most,
        serve,
    };
    Some(run_slot(&host, job))
}

/// Whether a slot came out as its row says.
fn comes_out(alloc: Global, row: &Row) -> bool {
    match run_row(alloc, row) {
        Some(done) => {
            done.logs.as_slice() == row.served
                && done.end == row.end
                && done.place == row.served.len() as u64
        }
        None => false,
    }
}

fn all_come_out(alloc: Global, rows: &[Row]) -> bool {
    for row in rows {
        if !comes_out(alloc, row) {
            return false;
        }
    }
    true
}

#[test]
fn a_slot_serves_until_its_end(rt: HostRuntime) {
    assert!(rt; all_come_out(rt.alloc(), ROWS));
}
