//! The links of a slot, each served by the slot's hand.
ghost use Rattle.std.specs.Prelude.{◌≡◌};
ghost use Rattle.halls.specs.Served as Spec;

use crate::ends::{HallRead, HallWrite};
use crate::hall::Hall;
use crate::side::hall_side;
use heard_messages::ReadEnd;
use link_slots::{LinkDone, LinkJob};
use orb_base::{ConnId, Sink, Source};
use std::alloc::Global;

/// What a connection leaves.
#[derive(Drop)]
pub struct LinkLog<I, O> {
    pub id: ConnId,
    pub source: I,
    pub sink: O,
    pub read: HallRead,
    pub write: HallWrite,
}

/// Whether a slot serves no link after a connection that came out so: a limit was met.
fn closes(read: HallRead) -> bool
    ensures { result ≡ Spec.closes read }
{
    matches!(read, HallRead::RunClosed | HallRead::Read(ReadEnd::Spent))
}

/// Serves the next link of a slot.
pub fn serve_next<I: Source + Drop, O: Sink + Drop, H: Hall>(
    alloc: Global,
    hall: &H,
    link: LinkJob<H::Hand, I, O>,
) -> LinkDone<H::Hand, LinkLog<I, O>>
    requires of { H.is_of hall.now link.place }
    ensures of { H.is_of hall.now result.place }
    ensures serves { Spec.ServesLink I.state O.state (H.judged_by hall.now) H.held link result }
{
    let LinkJob {
        nth,
        place,
        source,
        sink,
    } = link;
    let mut hand = place;
    let mut source = source;
    let mut sink = sink;
    let id = ConnId {
        slot: hall.slot(&hand),
        nth,
    };
    let (read, write) = hall_side(alloc, &mut source, &mut sink, hall, &mut hand, id);
    LinkDone {
        place: hand,
        log: LinkLog {
            id,
            source,
            sink,
            read,
            write,
        },
        closes: closes(read),
    }
}
