//! Connections of a judge that counts requests, laid out by hand: CORBA 3.0.3, section 15.4.
ghost use Rattle.std.specs.Prelude.{◌≡◌, ◌+◌, ◌≤◌, ℕ, Some, None, length};
ghost use Rattle.std.proofs.Common.{sym, ◌∙◌};
ghost use Rattle.pipe_tests.specs.declared.heard_messages_tests.Counted.{Counted};
ghost use Rattle.giop_messages.specs.Message.{request, cancel, close, error};
ghost use Rattle.giop_messages.specs.declared.refused.Fault.TheVariants.{WrongWay};
ghost use Rattle.heard_messages.specs.declared.means.Means.{Means};
ghost use Rattle.heard_messages.specs.declared.means.Means.TheVariants.{Goes, Ends, Breaks};

use crate::samples::join;
use giop_frames::{FrameCause, Framer};
use giop_messages::{Fault, Parts};
use heard_messages::*;
use orb_base::{NoMemory, Octets, Order};
use std::alloc::Global;
use std::test::*;

/// The call of a request.
#[derive(Clone, Copy, Debug, PartialEq, Eq)]
struct Counted {
    /// Its number among the calls.
    serial: u32,
    /// The id of the request.
    id: u32,
    /// The id of the request or the CancelRequest before it, or 0.
    earlier: u32,
}

/// Each request is a call. A CancelRequest is none, and its id counts as the one before the next request. CloseConnection and MessageError
/// end the connection, and no other message may come.
#[derive(Drop)]
struct Counting;

impl Judge for Counting {
    type Bound = u32;

    type Call = Counted;

    ghost first = { λ judge. 0 };

    ghost means = { λ judge bound serial order size message x. x ≡ elim message as (λ m. Means ℕ Counted) [
      | request r ↦ Goes r.id (Some (record { serial = serial; id = r.id; earlier = bound }))
      | cancel id ↦ Goes id None
      | close ↦ Ends
      | error ↦ Ends
      | _ ↦ Breaks WrongWay
    ] };

    ghost one_way = { λ judge bound serial order size message x y p q. p ∙ sym q };

    fn begin(&self) -> u32 {
        0
    }

    fn judge(
        &self,
        _alloc: Global,
        bound: &u32,
        serial: u32,
        _order: Order,
        _size: u32,
        parts: Parts<'_>,
    ) -> Result<Means<u32, Counted>, NoMemory> {
        match parts {
            Parts::Request { id, .. } => Ok(Means::Goes {
                bound: id,
                call: Some(Counted {
                    serial,
                    id,
                    earlier: *bound,
                }),
            }),
            Parts::Cancel(id) => Ok(Means::Goes {
                bound: id,
                call: None,
            }),
            Parts::Reply { .. } => Ok(Means::Breaks(Fault::WrongWay)),
            Parts::Locate { .. } => Ok(Means::Breaks(Fault::WrongWay)),
            Parts::Located { .. } => Ok(Means::Breaks(Fault::WrongWay)),
            Parts::Close => Ok(Means::Ends),
            Parts::Error => Ok(Means::Ends),
        }
    }
}

/// Requests of the ids 1 and 3, of 48 bytes each.
const ONE: &[u8] =
    b"GIOP\x01\x02\0\0\0\0\0\x24\0\0\0\x01\x03\0\0\0\0\0\0\0\0\0\0\x04ping\0\0\0\x08current\0\0\0\0\0";

const THREE: &[u8] =
    b"GIOP\x01\x02\0\0\0\0\0\x24\0\0\0\x03\0\0\0\0\0\0\0\0\0\0\0\x04pong\0\0\0\x08current\0\0\0\0\0";

/// A request whose target has the form 3.
const BAD_FORM: &[u8] =
    b"GIOP\x01\x02\0\0\0\0\0\x24\0\0\0\x03\0\0\0\0\0\x03\0\0\0\0\0\x04pong\0\0\0\x08current\0\0\0\0\0";

/// The first 20 bytes of a request.
const PART: &[u8] = b"GIOP\x01\x02\0\0\0\0\0\x24\0\0\0\x01\x03\0\0\0";

/// A request of id 1 in three pieces, of 24, 32 and 24 bytes, and one of id 2, of 48 bytes.
const FIRST: &[u8] = b"GIOP\x01\x02\x02\0\0\0\0\x0c\0\0\0\x01\x03\0\0\0\0\0\0\0";

const TWO: &[u8] =
    b"GIOP\x01\x02\0\0\0\0\0\x24\0\0\0\x02\x03\0\0\0\0\0\0\0\0\0\0\x04ping\0\0\0\x08current\0\0\0\0\0";

const SECOND: &[u8] = b"GIOP\x01\x02\x02\x07\0\0\0\x14\0\0\0\x01\0\0\0\x04ping\0\0\0\x08curr";

const LAST: &[u8] = b"GIOP\x01\x02\0\x07\0\0\0\x0c\0\0\0\x01ent\0\0\0\0\0";

/// A CancelRequest of id 7.
const CANCEL: &[u8] = b"GIOP\x01\x02\0\x02\0\0\0\x04\0\0\0\x07";

const LOCATED: &[u8] = b"GIOP\x01\x02\0\x04\0\0\0\x08\0\0\0\x05\0\0\0\x01";

const CLOSE: &[u8] = b"GIOP\x01\x02\0\x05\0\0\0\0";

const ERROR: &[u8] = b"GIOP\x01\x02\0\x06\0\0\0\0";

/// A header with another magic.
const BAD_MAGIC: &[u8] = b"GIOX\x01\x02\0\0\0\0\0\0";

/// A call by its number, its id and the id before it.
type Call = (u32, u32, u32);

/// The parts of an input, its calls, and how it ends.
type Row = (&'static [&'static [u8]], &'static [Call], ReadEnd);

fn is_call(call: &Counted, want: &Call) -> bool {
    (call.serial, call.id, call.earlier) == *want
}

fn are_calls(calls: &[Counted], want: &[Call]) -> bool {
    if calls.len() != want.len() {
        return false;
    }
    for (call, want) in calls.iter().zip(want) {
        if !is_call(call, want) {
            return false;
        }
    }
    true
}

/// Whether the first of these are the calls of one piece, and the others those of the next.
fn are_joined(first: &[Counted], second: &[Counted], want: &[Call]) -> bool {
    if want.len() < first.len() {
        return false;
    }
    let (early, late) = want.split_at(first.len());
    are_calls(first, early) && are_calls(second, late)
}

/// Whether the calls and the ending are these where a connection comes in two pieces.
fn hears_in_two(
    alloc: Global,
    front: &[u8],
    back: &[u8],
    want: &[Call],
    end: ReadEnd,
) -> Result<bool, NoMemory>
    requires { length front.now + length back.now ≤ 1024 }
{
    let judge = Counting;
    let mut hearing = Hearing::new(alloc, &judge)?;
    let first = hearing.feed(alloc, front)?;
    if let Some(ending) = first.ending {
        return Ok(ending == end && are_calls(first.calls.as_slice(), want));
    }
    let second = hearing.feed(alloc, back)?;
    let last = match second.ending {
        Some(ending) => ending,
        None => hearing.at_end(),
    };
    Ok(last == end && are_joined(first.calls.as_slice(), second.calls.as_slice(), want))
}

/// The same wherever the pieces are cut.
fn hears_cut(alloc: Global, bytes: &[u8], want: &[Call], end: ReadEnd) -> bool
    requires { length bytes.now ≤ 1024 }
{
    for at in 0..bytes.len() {
        let (front, back) = bytes.split_at(at);
        if hears_in_two(alloc, front, back, want, end) != Ok(true) {
            return false;
        }
    }
    hears_in_two(alloc, bytes, &[], want, end) == Ok(true)
}

/// The same of a whole input.
fn hears_whole(alloc: Global, bytes: &[u8], want: &[Call], end: ReadEnd) -> bool
    requires { length bytes.now ≤ 1024 }
{
    let judge = Counting;
    match hear_input(alloc, &judge, bytes) {
        Ok(heard) => heard.end == end && are_calls(heard.calls.as_slice(), want),
        Err(_) => false,
    }
}

/// Whether an input means its calls and ends so, as a whole and however it is cut.
fn holds(alloc: Global, row: &Row) -> bool {
    let (parts, want, end) = *row;
    let mut bytes = Octets::new(alloc);
    if !join(&mut bytes, parts) || bytes.len() > 1024 {
        return false;
    }
    let bytes = bytes.as_slice();
    hears_whole(alloc, bytes, want, end) && hears_cut(alloc, bytes, want, end)
}

fn all_hold(alloc: Global, rows: &[Row]) -> bool {
    for row in rows {
        if !holds(alloc, row) {
            return false;
        }
    }
    true
}

const HEARD: &[Row] = &[
    (&[], &[], ReadEnd::Ended),
    (&[ONE], &[(0, 1, 0)], ReadEnd::Ended),
    (&[ONE, THREE], &[(0, 1, 0), (1, 3, 1)], ReadEnd::Ended),
    (
        &[ONE, CANCEL, THREE],
        &[(0, 1, 0), (1, 3, 7)],
        ReadEnd::Ended,
    ),
    (
        &[FIRST, TWO, SECOND, LAST],
        &[(0, 2, 0), (1, 1, 2)],
        ReadEnd::Ended,
    ),
    (&[ONE, PART], &[(0, 1, 0)], ReadEnd::Cut(48)),
    (&[FIRST, TWO], &[(0, 2, 0)], ReadEnd::Cut(0)),
];

#[test]
fn requests_are_counted(rt: HostRuntime) {
    messages_mean_one_thing::<Counting>();
    bytes_mean_one_thing::<Counting>();
    further_bytes_add_calls::<Counting>();
    bytes_end_by_what_they_say::<Counting>();
    whole_streams_are_inputs::<Counting>();
    assert!(rt; all_hold(rt.alloc(), HEARD));
}

const ENDING: &[Row] = &[
    (&[ONE, CLOSE, THREE], &[(0, 1, 0)], ReadEnd::Ended),
    // A message goes before a fault of framing after it.
    (&[ERROR, BAD_MAGIC], &[], ReadEnd::Ended),
    (
        &[ONE, LOCATED, THREE],
        &[(0, 1, 0)],
        ReadEnd::Broken {
            offset: 48,
            fault: Fault::WrongWay,
        },
    ),
    (
        &[CANCEL, BAD_FORM, THREE],
        &[],
        ReadEnd::Broken {
            offset: 16,
            fault: Fault::BadTarget,
        },
    ),
    (
        &[ONE, BAD_MAGIC],
        &[(0, 1, 0)],
        ReadEnd::Broken {
            offset: 48,
            fault: Fault::Frame(FrameCause::BadMagic),
        },
    ),
];

#[test]
fn a_message_or_a_piece_may_end_the_reading(rt: HostRuntime) {
    assert!(rt; all_hold(rt.alloc(), ENDING));
}

/// Whether the request of id 3 is heard so after five calls, of which the last was of id 9.
fn hears_after_nine(alloc: Global, piece: &[u8]) -> Result<bool, NoMemory>
    requires { length piece.now ≤ 1024 }
{
    let mut framer = Framer::new(alloc, 262_144)?;
    let framed = frame(alloc, &mut framer, piece)?;
    let messages = framed.messages.as_slice();
    if messages.len() > 8 {
        return Ok(false);
    }
    let judge = Counting;
    let mut bound = 9;
    let heard = hear(alloc, &judge, &mut bound, 5, messages)?;
    Ok(
        bound == 3
            && framed.bad.is_none()
            && heard.ending.is_none()
            && are_calls(heard.calls.as_slice(), &[(5, 3, 9)]),
    )
}

#[test]
fn hearing_goes_on_from_what_is_settled(rt: HostRuntime) {
    assert!(rt; hears_after_nine(rt.alloc(), THREE) == Ok(true));
}
