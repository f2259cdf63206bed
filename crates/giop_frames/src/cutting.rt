//! A whole message cut into pieces (CORBA 3.0.3, section 15.4.9).
ghost use Rattle.std.specs.Prelude.{◌≡◌, ◌≤◌, ◌<◌, ◌+◌, ◌-◌, ◌%◌, ◌^◌, ◌∷◌, ◌++◌, [], length, take, drop, slice_index, true, false, IfOk, OnOk, if◌then◌else◌, IsTrue, ◌↔◌};
ghost use Rattle.giop_frames.specs.Pieces.{has_more as has_more_in};
ghost use Rattle.giop_frames.specs.Splitting as Spec;
ghost use Rattle.giop_frames.specs.Splitting.{IsUncut, CountsUncut, ArePiecesOf, AreFull, ReadsAs, piece_of};

use crate::header::{HEADER, Header, kind_of, order_of};
use crate::kind::Kind;
use cdr_core::bytes_of_u32;
use orb_base::{List, NoMemory, Octets};
use std::alloc::Global;

/// The length of an id in bytes.
const ID: usize = 4;

/// The flags of a message of one piece, with the fragment bit set where more pieces follow.
#[tactic(auto, unfolding(crate::specs::Pieces::has_more))]
fn flags_of(message: &[u8], more: bool) -> u8
    requires header { 12 ≤ length message.now }
    requires alone { has_more_in message.now ≡ false }
    ensures { result ≡ slice_index message.now 6 + (if more then 2 else 0) }
{
    if more { message[6] + 2 } else { message[6] }
}

/// A piece of a message: a header of this kind, the message's id, and some of its further bytes.
#[tactic(auto, unfolding(crate::specs::Splitting::piece_of))]
fn piece(
    alloc: Global,
    message: &[u8],
    more: bool,
    kind: u8,
    bytes: &[u8],
) -> Result<Octets, NoMemory>
    requires header { 16 ≤ length message.now }
    requires alone { has_more_in message.now ≡ false }
    requires fits { 4 + length bytes.now < 2 ^ 32 }
    ensures { IfOk result (λ p. p.items ≡ piece_of message.now more kind bytes.now) }
{
    let flags = flags_of(message, more);
    let size = (ID + bytes.len()) as u32;
    let mut all = Octets::new(alloc);
    all.reserve(HEADER + ID + bytes.len())?;
    all.append(&message[..6])?;
    all.append(&[flags, kind])?;
    all.append(&bytes_of_u32(order_of(message), size))?;
    all.append(&message[HEADER..HEADER + ID])?;
    all.append(bytes)?;
    Ok(all)
}

/// A Fragment of a message with some of its further bytes.
fn fragment(alloc: Global, message: &[u8], more: bool, bytes: &[u8]) -> Result<Octets, NoMemory>
    requires header { 16 ≤ length message.now }
    requires alone { has_more_in message.now ≡ false }
    requires fits { 4 + length bytes.now < 2 ^ 32 }
    ensures { IfOk result (λ p. p.items ≡ Spec.fragment message.now more bytes.now) }
{
    piece(alloc, message, more, Kind::Fragment.number(), bytes)
}

fn put(pieces: &mut List<Octets>, piece: Octets) -> Result<(), NoMemory>
    ensures { OnOk result (pieces.new.items ≡ pieces.old.items ++ piece ∷ []) }
{
    match pieces.push(piece) {
        Ok(()) => Ok(()),
        Err(_) => Err(NoMemory),
    }
}

/// Whether a message of this header and this length is whole, of one piece and with its id, and of a kind that may come
/// in fragments.
fn is_uncut(header: Header, len: usize) -> bool
    ensures { IsTrue result ↔ CountsUncut header len }
{
    len >= HEADER + ID && !header.more && header.kind.is_long() && len == header.piece_len()
}

/// Whether `split` takes a message: a whole one of one piece, of a kind that may come in fragments, with its id.
#[tactic(auto, using(crate::proofs::Uncut::uncut_by, crate::proofs::Uncut::uncut_not))]
pub fn can_split(message: &[u8]) -> bool
    ensures { IsTrue result ↔ IsUncut message.now }
{
    if message.len() < HEADER {
        return false;
    }
    match Header::read(message) {
        Ok(header) => is_uncut(header, message.len()),
        Err(_) => false,
    }
}

/// Cuts a whole message of one piece into pieces of at most `limit` bytes, their headers included: a Request, Reply,
/// LocateRequest or LocateReply, of at least 16 bytes. The limit is a multiple of 8.
///
/// A message within the limit is one piece, itself. Else the first piece is its first `limit` bytes with the fragment bit
/// and the size of the piece, and Fragments with its id and its order carry the further bytes. Each piece but the last has
/// exactly `limit` bytes. Each byte is copied once; memory is taken once for each piece, and the list of them grows.
pub fn split(alloc: Global, message: &[u8], limit: usize) -> Result<List<Octets>, NoMemory>
    requires message { IsUncut message.now }
    requires eights { limit % 8 ≡ 0 }
    requires least { 24 ≤ limit }
    ensures pieces { IfOk result (λ ps. ArePiecesOf limit message.now ps.items) }
    ensures full { IfOk result (λ ps. AreFull limit ps.items) }
    ensures reads { IfOk result (λ ps. ReadsAs message.now ps.items) }
{
    let mut pieces = List::new(alloc);
    if message.len() <= limit {
        let mut lone = Octets::new(alloc);
        lone.append(message)?;
        put(&mut pieces, lone)?;
        return Ok(pieces);
    }
    let room = limit - (HEADER + ID);
    let (front, mut left) = message.split_at(limit);
    let first = piece(
        alloc,
        message,
        true,
        kind_of(message),
        &front[HEADER + ID..],
    )?;
    put(&mut pieces, first)?;
    while left.len() > room {
        let middle = fragment(alloc, message, true, &left[..room])?;
        put(&mut pieces, middle)?;
        left = &left[room..];
    }
    let last = fragment(alloc, message, false, left)?;
    put(&mut pieces, last)?;
    Ok(pieces)
}
