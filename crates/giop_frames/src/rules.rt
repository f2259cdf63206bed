//! The rules that a whole piece is judged by.
ghost use Rattle.std.specs.Prelude.{◌≡◌, ◌≤◌, ◌+◌, length, nat_lt, Ok};
ghost use Rattle.std.specs.Option.{option_copied};
ghost use Rattle.giop_frames.specs.Headers.{BeginsWith};
ghost use Rattle.giop_frames.specs.Pieces.{id_of};
ghost use Rattle.giop_frames.specs.Stream as Rule;

use crate::fault::FrameCause;
use crate::header::Header;
use crate::kind::Kind;
use crate::unfinished::{Unfinished, open_at};
use orb_base::Order;

/// Unfinished messages of a stream at once.
pub(crate) const MAX_PARTIALS: usize = 16;

#[tactic(auto, unfolding(crate::specs::Stream::same_order))]
fn same_order(a: Order, b: Order) -> bool
    ensures { result ≡ Rule.same_order a b }
{
    match a {
        Order::Big => match b {
            Order::Big => true,
            Order::Little => false,
        },
        Order::Little => match b {
            Order::Big => false,
            Order::Little => true,
        },
    }
}

/// Whether two lengths together pass the limit.
fn exceeds(limit: usize, has: usize, more: usize) -> bool
    ensures { result ≡ nat_lt limit (has + more) }
{
    has > limit || more > limit - has
}

#[tactic(auto, unfolding(crate::specs::Stream::fragment_cause))]
fn fragment_cause(
    limit: usize,
    order: Order,
    len: usize,
    begun: Option<&Unfinished>,
) -> Option<FrameCause>
    requires { 16 ≤ len }
    ensures { result ≡ Rule.fragment_cause limit order len (option_copied begun.entry) }
{
    match begun {
        None => Some(FrameCause::BadPiece),
        Some(u) => {
            if !same_order(u.order, order) {
                Some(FrameCause::BadPiece)
            } else if exceeds(limit, u.bytes.len(), len - 16) {
                Some(FrameCause::TooLong)
            } else {
                None
            }
        }
    }
}

#[tactic(auto, unfolding(crate::specs::Stream::first_cause))]
fn first_cause(partials: &[Unfinished], id: u32) -> Option<FrameCause>
    ensures { result ≡ Rule.first_cause partials.now id }
{
    if open_at(id, partials).is_some() {
        Some(FrameCause::BadPiece)
    } else if partials.len() >= MAX_PARTIALS {
        Some(FrameCause::TooManyPartials)
    } else {
        None
    }
}

/// The first rule that a piece of a length breaks after these unfinished messages, by its header and its first bytes: 16
/// of them, or all of a shorter piece.
pub(crate) fn piece_cause(
    limit: usize,
    partials: &[Unfinished],
    header: Header,
    bytes: &[u8],
    len: usize,
) -> Option<FrameCause>
    requires begins { BeginsWith header bytes.now }
    requires least { 12 ≤ len }
    requires long { 16 ≤ len → 16 ≤ length bytes.now }
    ensures { result ≡ Rule.piece_rule limit partials.now len (id_of bytes.now) (Ok header) }
{
    if header.more && header.kind.comes_whole() {
        Some(FrameCause::BadPiece)
    } else if header.more && len % 8 != 0 {
        Some(FrameCause::BadPiece)
    } else if header.is(Kind::Fragment) {
        if len < 16 {
            Some(FrameCause::BadPiece)
        } else {
            let begun = open_at(header.id_of(bytes), partials);
            fragment_cause(limit, header.order, len, begun)
        }
    } else if header.more {
        first_cause(partials, header.id_of(bytes))
    } else {
        None
    }
}
