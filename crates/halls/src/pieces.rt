//! One read's bytes of a connection: what they complete is made before the next read.
ghost use Rattle.std.specs.Prelude.{◌≡◌, ◌+◌, ◌<◌, ◌^◌, length, reverse};
ghost use Rattle.heard_messages.specs.Hearers.{IsGoing};
ghost use Rattle.halls.specs.Calls.{Takes, AreThere};
ghost use Rattle.halls.specs.Pieces as Spec;

use crate::call::HallCall;
use crate::calling::take;
use crate::ends::{HallRead, Took};
use crate::hall::Hall;
use crate::judge::HallJudge;
use heard_messages::{Hearing, ReadEnd};
use orb_base::{NoMemory, Sink};
use std::alloc::Global;

/// Makes calls in order, up to one that isn't made whole. The last call is first.
fn take_turned<O: Sink, H: Hall>(
    sink: &mut O,
    hall: &H,
    hand: &mut H::Hand,
    turned: Vec<HallCall>,
) -> Took
    requires of { H.is_of hall.now hand.old }
    requires there { AreThere (length (H.judged_by hall.now).objects) (reverse turned.items) }
    ensures of { H.is_of hall.now hand.new }
    ensures takes { Takes result (reverse turned.items) (record { hand = H.held hand.old; sink = O.state sink.old })
        (record { hand = H.held hand.new; sink = O.state sink.new }) }
{
    let mut left = turned;
    while let Some(call) = left.pop() {
        match take(sink, hall, hand, call) {
            Took::All => {}
            Took::RunClosed => return Took::RunClosed,
            Took::Stopped => return Took::Stopped,
        }
    }
    Took::All
}

/// Makes calls in order, up to one that isn't made whole. Takes no memory.
fn take_all<O: Sink, H: Hall>(
    sink: &mut O,
    hall: &H,
    hand: &mut H::Hand,
    calls: Vec<HallCall>,
) -> Took
    requires of { H.is_of hall.now hand.old }
    requires there { AreThere (length (H.judged_by hall.now).objects) calls.items }
    ensures of { H.is_of hall.now hand.new }
    ensures takes { Takes result calls.items (record { hand = H.held hand.old; sink = O.state sink.old })
        (record { hand = H.held hand.new; sink = O.state sink.new }) }
{
    let mut turned = calls;
    turned.reverse();
    take_turned(sink, hall, hand, turned)
}

/// How the reading came out with a piece whose calls came to this, if it did.
fn out_of(took: Took, ending: Option<ReadEnd>) -> Option<HallRead>
    ensures { result ≡ Spec.out_of took ending }
{
    match (took, ending) {
        (Took::RunClosed, _) => Some(HallRead::RunClosed),
        (Took::Stopped, _) => Some(HallRead::Stopped),
        (Took::All, Some(end)) => Some(HallRead::Read(end)),
        (Took::All, None) => None,
    }
}

/// Hears one piece and makes its calls. None where the reading goes on.
pub fn take_piece<O: Sink, H: Hall>(
    alloc: Global,
    sink: &mut O,
    hall: &H,
    hand: &mut H::Hand,
    hearing: &mut Hearing<'_, HallJudge<'_>>,
    piece: &[u8],
) -> Option<HallRead>
    requires of { H.is_of hall.now hand.old }
    requires going { IsGoing Spec.first Spec.means hearing.old }
    requires few { length hearing.old.framer.fed + length piece.now < 2 ^ 32 }
    requires setup { hearing.old.judge.setup ≡ H.judged_by hall.now }
    ensures of { H.is_of hall.now hand.new }
    ensures takes { Spec.TakesPiece result hearing.old hearing.new piece.now (record { hand = H.held hand.old; sink = O.state sink.old })
        (record { hand = H.held hand.new; sink = O.state sink.new }) }
{
    match hearing.feed(alloc, piece) {
        Ok(heard) => {
            let took = take_all(sink, hall, hand, heard.calls.into_vec());
            out_of(took, heard.ending)
        }
        Err(NoMemory) => Some(HallRead::NoMemory),
    }
}
