//! Messages that are written from their parts: a head in bytes of its own, and the body where it lies. Takes no memory.
//! CORBA 3.0.3, section 15.4.
ghost use Rattle.std.specs.Prelude.{◌≡◌, ◌≤◌, ◌<◌, ◌+◌, ◌^◌, [], ◌++◌, length};
ghost use Rattle.std.specs.Int.{w32};
ghost use Rattle.cdr_core.specs.Encapsulation.{order_byte};
ghost use Rattle.cdr_core.specs.Field.{number_bytes};
ghost use Rattle.giop_messages.specs.Layout.{header};
ghost use Rattle.text_streams.specs.Streams.{WritesAll};
ghost use Rattle.item_writer.specs.Heads.{numbered_head, reply_head};

use arrayvec::ArrayVec;
use cdr_core::bytes_of_u32;
use giop_messages::header_start;
use orb_base::{Order, Sink};
use text_streams::{WriteAll, write_all};

/// Bytes of a head: what is before a body, and with it a body that is short enough to be written at once.
pub const HEAD_LEN: usize = 128;

/// The head of a message.
pub type Head = ArrayVec<u8, HEAD_LEN>;

/// Bytes of the first write of a message whose body doesn't fit into the head's bytes.
const FIRST_LEN: usize = 4096;

/// Appends bytes for which there is room.
pub fn put(head: &mut Head, bytes: &[u8])
    requires { length head.old.items + length bytes.now ≤ 128 }
    ensures items { head.new.items ≡ head.old.items ++ bytes.now }
    ensures len { length head.new.items ≡ length head.old.items + length bytes.now }
{
    match head.try_extend_from_slice(bytes) {
        Ok(()) => {}
        Err(_) => unreachable!(),
    }
}

/// Appends an unsigned long.
pub fn put_u32(head: &mut Head, order: Order, n: u32)
    requires { length head.old.items + 4 ≤ 128 }
    ensures items { head.new.items ≡ head.old.items ++ number_bytes order w32 n }
    ensures len { length head.new.items ≡ length head.old.items + 4 }
{
    put(head, &bytes_of_u32(order, n));
}

/// The header of a message: its kind, and how many bytes are after the header.
pub fn header_of(order: Order, kind: u8, size: u32) -> Head
    ensures items { result.items ≡ header order (order_byte order) kind size }
    ensures len { length result.items ≡ 12 }
{
    let mut head = ArrayVec::new();
    put(&mut head, &header_start(order, kind));
    put_u32(&mut head, order, size);
    head
}

/// The header with two numbers after it.
pub fn numbered(order: Order, kind: u8, size: u32, id: u32, status: u32) -> Head
    ensures items { result.items ≡ numbered_head order kind size id status }
    ensures len { length result.items ≡ 20 }
{
    let mut head = header_of(order, kind, size);
    put_u32(&mut head, order, id);
    put_u32(&mut head, order, status);
    head
}

/// The head of a reply without contexts before so many bytes.
pub fn reply_head_of(order: Order, id: u32, status: u32, len: u32) -> Head
    requires { len + 12 < 2 ^ 32 }
    ensures { result.items ≡ reply_head order id status len }
{
    let mut head = numbered(order, 1, len + 12, id, status);
    put_u32(&mut head, order, 0);
    head
}

/// Writes a head, and then a body.
#[tactic(auto, using(crate::proofs::Saying::whole_both, crate::proofs::Saying::failed_first))]
fn write_both<O: Sink>(sink: &mut O, head: &[u8], body: &[u8]) -> WriteAll
    ensures { WritesAll result (head.now ++ body.now) (O.state sink.old) (O.state sink.new) }
{
    match write_all(sink, head) {
        WriteAll::Whole => write_all(sink, body),
        WriteAll::Failed => WriteAll::Failed,
    }
}

/// A head and the start of a body.
fn first_of(head: &[u8], start: &[u8]) -> ArrayVec<u8, FIRST_LEN>
    requires { length head.now + length start.now ≤ 4096 }
    ensures { result.items ≡ head.now ++ start.now }
{
    let mut first = ArrayVec::new();
    match (
        first.try_extend_from_slice(head),
        first.try_extend_from_slice(start),
    ) {
        (Ok(()), Ok(())) => first,
        _ => unreachable!(),
    }
}

/// Writes a head with as much of the body as one write has room for, and then what is left of the body from where it lies.
#[tactic(auto, using(crate::proofs::Saying::whole_of_parts))]
fn write_long<O: Sink>(sink: &mut O, head: &Head, body: &[u8]) -> WriteAll
    ensures { WritesAll result (head.now.items ++ body.now) (O.state sink.old) (O.state sink.new) }
{
    let room = FIRST_LEN - head.len();
    let (start, rest) = body.split_at(body.len().min(room));
    let first = first_of(head.as_slice(), start);
    write_both(sink, first.as_slice(), rest)
}

/// Writes a head and the body after it: at once where both fit into the head's bytes, and else as `write_long` does.
pub fn write_message<O: Sink>(sink: &mut O, head: Head, body: &[u8]) -> WriteAll
    ensures { WritesAll result (head.items ++ body.now) (O.state sink.old) (O.state sink.new) }
{
    let mut whole = head;
    match whole.try_extend_from_slice(body) {
        Ok(()) => write_all(sink, whole.as_slice()),
        Err(_) => write_long(sink, &whole, body),
    }
}
