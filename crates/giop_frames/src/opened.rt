//! Pieces as they come.
ghost use Rattle.std.specs.Prelude.{◌≡◌, ◌≤◌, ◌++◌, length, IfOk, IsSome, Ok, None, true};
ghost use Rattle.giop_frames.specs.declared.fault.FeedFault.TheVariants.{Frame};
ghost use Rattle.giop_frames.specs.Headers.{BeginsWith, header_at};
ghost use Rattle.giop_frames.specs.Messages.{is_fragment, open_at};
ghost use Rattle.giop_frames.specs.Pieces as Spec;
ghost use Rattle.giop_frames.specs.Steps.{Found};
ghost use Rattle.giop_frames.specs.Stream.{header_cause};
ghost use Rattle.giop_frames.specs.Joining.{IsFilled, lifted};
ghost use Rattle.giop_frames.specs.Opening.{Advances, ComesSo, FillsFrom, IsOpened, JoinsTo, MoreOf, Opens, TakesPiece, all_of, at_coming, at_head, at_opened};

use crate::fault::{FeedFault, FrameCause, FrameFault};
use crate::header::{HEADER, Header, judged, kind_of};
use crate::kind::Kind;
use crate::partials::{end_joined, take_own, take_piece};
use crate::rules::piece_cause;
use crate::unfinished::{Unfinished, place_of};
use crate::whole::Whole;
use orb_base::{List, NoMemory, Octets, Told};
use std::alloc::Global;

/// How many bytes of a piece are judged: its header and the id after it.
pub(crate) const JUDGED: usize = 16;

/// How much memory a header makes a piece take at most, in bytes, before more of it has come.
const FIRST_ROOM: usize = 16_384;

/// Where a piece begins, the limit on its length, and the allocator.
#[derive(Clone, Copy)]
pub(crate) struct Here {
    pub alloc: Global,
    pub limit: usize,
    pub at: u64,
}

/// The unfinished message that a Fragment joins, with the bytes of that Fragment after its own.
#[derive(Drop)]
pub(crate) struct Joining {
    /// Its index among the unfinished messages, from which it is taken meanwhile.
    pub place: usize,
    pub message: Unfinished,
    /// How many of its bytes are its own.
    pub own: usize,
    /// The number of its kind.
    pub kind: u8,
}

/// What becomes of the bytes of a piece.
#[derive(Drop)]
pub(crate) enum Filling {
    /// They are those of a message, or the first ones of one.
    Own(Octets),
    /// Those after the id join an unfinished message.
    Joins(Joining),
    /// The piece breaks this rule: its bytes are counted and not kept.
    Breaks(FrameCause),
}

/// A piece that was judged by its first 16 bytes.
#[derive(Drop)]
pub(crate) struct Opened {
    pub header: Header,
    pub filling: Filling,
}

/// What has come of the next piece.
#[derive(Drop)]
pub(crate) enum Coming {
    /// These bytes, too few to judge it by.
    Head(Octets),
    Open(Opened),
}

/// The fault of a piece.
fn fault_at(here: Here, cause: FrameCause) -> FeedFault
    ensures { result ≡ Frame (record { cause = cause; offset = here.at }) }
{
    FeedFault::Frame(FrameFault {
        cause,
        offset: here.at,
    })
}

/// Out of memory as the fault of a feed.
fn lift(answer: Result<(), NoMemory>) -> Result<(), FeedFault>
    ensures { result ≡ lifted answer }
{
    match answer {
        Ok(()) => Ok(()),
        Err(_) => Err(FeedFault::NoMemory),
    }
}

/// Judges a whole piece after its header, and takes it.
fn take_judged(
    here: Here,
    partials: &mut Vec<Unfinished>,
    header: Header,
    bytes: &[u8],
    whole: &mut List<Whole>,
) -> Result<(), FeedFault>
    requires begins { BeginsWith header bytes.now }
    requires value { header_at bytes.now ≡ Ok header }
    requires sound { header_cause here.limit bytes.now ≡ None }
    requires full { length bytes.now ≡ Spec.piece_len bytes.now }
    requires filled { IsFilled (at_head here bytes.now partials.old.items) }
    ensures { TakesPiece result (at_head here bytes.now partials.old.items) partials.new.items whole.old.items whole.new.items }
{
    match piece_cause(here.limit, partials.as_slice(), header, bytes, bytes.len()) {
        Some(cause) => Err(fault_at(here, cause)),
        None => lift(take_piece(here, partials, header, bytes, whole)),
    }
}

/// Judges a whole piece, and takes it. Its bytes are copied once.
pub(crate) fn take_whole(
    here: Here,
    partials: &mut Vec<Unfinished>,
    bytes: &[u8],
    whole: &mut List<Whole>,
) -> Result<(), FeedFault>
    requires long { 12 ≤ length bytes.now }
    requires full { length bytes.now ≡ Spec.piece_len bytes.now }
    requires filled { IsFilled (at_head here bytes.now partials.old.items) }
    ensures { TakesPiece result (at_head here bytes.now partials.old.items) partials.new.items whole.old.items whole.new.items }
{
    match judged(here.limit, bytes) {
        Err(cause) => Err(fault_at(here, cause)),
        Ok(header) => take_judged(here, partials, header, bytes, whole),
    }
}

/// The bytes of a message of its own, or the first ones of one: room for up to 16,384 of them is made at once.
fn open_own(bytes: Octets, len: usize) -> Result<Octets, NoMemory>
    ensures { IfOk result (λ own. own.items ≡ bytes.items) }
{
    let mut own = bytes;
    let more = len.min(FIRST_ROOM).saturating_sub(own.len());
    own.reserve_exact(more)?;
    Ok(own)
}

/// Takes an unfinished message out, and puts the first bytes of a Fragment after its own.
fn join_to(partials: &mut Vec<Unfinished>, place: usize, bytes: &[u8]) -> Result<Joining, NoMemory>
    requires long { 16 ≤ length bytes.now }
    requires found { Found (Spec.id_of bytes.now) partials.old.items place }
    requires fragment { is_fragment bytes.now ≡ true }
    ensures { IfOk result (λ j. JoinsTo j bytes.now partials.old.items partials.new.items) }
{
    let message = partials.remove(place);
    let own = message.bytes.len();
    let kind = kind_of(message.bytes.as_slice());
    let mut message = message;
    message.bytes.append(&bytes[JUDGED..])?;
    Ok(Joining {
        place,
        message,
        own,
        kind,
    })
}

/// What becomes of the bytes of a piece that breaks no rule.
fn fill_from(
    partials: &mut Vec<Unfinished>,
    header: Header,
    bytes: Octets,
) -> Result<Filling, NoMemory>
    requires begins { BeginsWith header bytes.items }
    requires long { 16 ≤ length bytes.items }
    requires open { is_fragment bytes.items ≡ true → IsSome (open_at (Spec.id_of bytes.items) partials.old.items) }
    ensures { IfOk result (λ f. FillsFrom f bytes.items partials.old.items partials.new.items) }
{
    if header.is(Kind::Fragment) {
        match place_of(header.id_of(bytes.as_slice()), partials.as_slice()) {
            Some(place) => Ok(Filling::Joins(join_to(partials, place, bytes.as_slice())?)),
            None => unreachable!(),
        }
    } else {
        Ok(Filling::Own(open_own(bytes, header.piece_len())?))
    }
}

/// Judges a piece by its first 16 bytes.
fn open_long(
    here: Here,
    partials: &mut Vec<Unfinished>,
    header: Header,
    bytes: Octets,
) -> Result<Opened, NoMemory>
    requires begins { BeginsWith header bytes.items }
    requires value { header_at bytes.items ≡ Ok header }
    requires sound { header_cause here.limit bytes.items ≡ None }
    requires long { 16 ≤ length bytes.items }
    requires part { length bytes.items ≤ Spec.piece_len bytes.items }
    ensures { IfOk result (λ o. Opens o (at_head here bytes.items partials.old.items) partials.new.items) }
{
    let len = header.piece_len();
    match piece_cause(
        here.limit,
        partials.as_slice(),
        header,
        bytes.as_slice(),
        len,
    ) {
        Some(cause) => Ok(Opened {
            header,
            filling: Filling::Breaks(cause),
        }),
        None => {
            let filling = fill_from(partials, header, bytes)?;
            Ok(Opened { header, filling })
        }
    }
}

/// Judges a piece once it may be judged, and takes it once it is whole.
fn open(
    here: Here,
    partials: &mut Vec<Unfinished>,
    header: Header,
    bytes: Octets,
    whole: &mut List<Whole>,
) -> Result<Option<Coming>, FeedFault>
    requires begins { BeginsWith header bytes.items }
    requires value { header_at bytes.items ≡ Ok header }
    requires sound { header_cause here.limit bytes.items ≡ None }
    requires filled { IsFilled (at_head here bytes.items partials.old.items) }
    ensures { Advances result (at_head here bytes.items partials.old.items) partials.new.items whole.old.items whole.new.items }
{
    if bytes.len() >= header.piece_len() {
        take_judged(here, partials, header, bytes.as_slice(), whole)?;
        Ok(None)
    } else if bytes.len() < JUDGED {
        Ok(Some(Coming::Head(bytes)))
    } else {
        match open_long(here, partials, header, bytes) {
            Ok(opened) => Ok(Some(Coming::Open(opened))),
            Err(_) => Err(FeedFault::NoMemory),
        }
    }
}

/// Looks at a piece of which these bytes have come.
fn look(
    here: Here,
    partials: &mut Vec<Unfinished>,
    bytes: Octets,
    whole: &mut List<Whole>,
) -> Result<Option<Coming>, FeedFault>
    requires filled { IsFilled (at_head here bytes.items partials.old.items) }
    ensures { Advances result (at_head here bytes.items partials.old.items) partials.new.items whole.old.items whole.new.items }
{
    if bytes.len() < HEADER {
        return Ok(Some(Coming::Head(bytes)));
    }
    match judged(here.limit, bytes.as_slice()) {
        Err(cause) => Err(fault_at(here, cause)),
        Ok(header) => open(here, partials, header, bytes, whole),
    }
}

/// More bytes of a piece that isn't judged.
fn grow_head(
    here: Here,
    partials: &mut Vec<Unfinished>,
    head: Octets,
    bytes: &[u8],
    whole: &mut List<Whole>,
) -> Result<Option<Coming>, FeedFault>
    requires filled { IsFilled (at_head here (head.items ++ bytes.now) partials.old.items) }
    ensures { Advances result (at_head here (head.items ++ bytes.now) partials.old.items) partials.new.items whole.old.items whole.new.items }
{
    let mut head = head;
    match head.append(bytes) {
        Ok(()) => look(here, partials, head, whole),
        Err(_) => Err(FeedFault::NoMemory),
    }
}

/// Room for so many more bytes of a message of this length: where it has to be made, it is up to three times what has come then, and
/// never more than the message has.
fn make_room(own: Octets, more: usize, len: usize) -> Result<Octets, NoMemory>
    ensures { IfOk result (λ grown. grown.items ≡ own.items) }
{
    let mut all = own.into_vec();
    let came = all.len().saturating_add(more);
    if all.capacity() < came {
        let room = came.saturating_mul(3).min(len).max(came);
        all.reserve_exact(room.saturating_sub(all.len()))?;
    }
    Ok(List::from_vec(all))
}

/// More bytes of a message of its own that has this length, or of the first piece of one.
fn grow_own(own: Octets, bytes: &[u8], len: usize) -> Result<Octets, NoMemory>
    ensures { IfOk result (λ grown. grown.items ≡ own.items ++ bytes.now) }
{
    let mut grown = make_room(own, bytes.len(), len)?;
    grown.append(bytes)?;
    Ok(grown)
}

/// More bytes of a piece of this length that was judged.
fn fill_more(filling: Filling, bytes: &[u8], len: usize) -> Result<Filling, NoMemory>
    ensures { IfOk result (λ f. MoreOf filling bytes.now f) }
{
    match filling {
        Filling::Own(own) => Ok(Filling::Own(grow_own(own, bytes, len)?)),
        Filling::Joins(joining) => {
            let mut joining = joining;
            joining.message.bytes.append(bytes)?;
            Ok(Filling::Joins(joining))
        }
        Filling::Breaks(cause) => Ok(Filling::Breaks(cause)),
    }
}

/// Takes a whole piece that was judged.
fn close(
    here: Here,
    partials: &mut Vec<Unfinished>,
    opened: Opened,
    tail: &Told<u8>,
    whole: &mut List<Whole>,
) -> Result<(), FeedFault>
    requires opened { IsOpened here.limit opened tail.now.items partials.old.items }
    requires full { length tail.now.items ≡ Spec.piece_len tail.now.items }
    requires filled { IsFilled (at_head here tail.now.items (all_of opened.filling partials.old.items)) }
    ensures { TakesPiece result (at_head here tail.now.items (all_of opened.filling partials.old.items)) partials.new.items whole.old.items whole.new.items }
{
    let Opened { header, filling } = opened;
    match filling {
        Filling::Own(bytes) => lift(take_own(partials, here.at, header, bytes, whole)),
        Filling::Joins(joining) => lift(end_joined(
            partials, here.at, header, joining, tail, whole,
        )),
        Filling::Breaks(cause) => Err(fault_at(here, cause)),
    }
}

/// More bytes of a piece that was judged, of which so many have come with them.
fn grow_opened(
    here: Here,
    partials: &mut Vec<Unfinished>,
    opened: Opened,
    tail: &Told<u8>,
    bytes: &[u8],
    came: usize,
    whole: &mut List<Whole>,
) -> Result<Option<Coming>, FeedFault>
    requires opened { IsOpened here.limit opened tail.now.items partials.old.items }
    requires came { came ≡ length (tail.now.items ++ bytes.now) }
    requires filled { IsFilled (at_opened here opened tail.now.items bytes.now partials.old.items) }
    ensures { Advances result (at_opened here opened tail.now.items bytes.now partials.old.items) partials.new.items whole.old.items whole.new.items }
{
    let Opened { header, filling } = opened;
    let len = header.piece_len();
    let Ok(filling) = fill_more(filling, bytes, len) else {
        return Err(FeedFault::NoMemory);
    };
    let opened = Opened { header, filling };
    if came < len {
        return Ok(Some(Coming::Open(opened)));
    }
    close(here, partials, opened, &tail.and(bytes), whole)?;
    Ok(None)
}

/// More bytes of a piece, of which so many have come with them.
pub(crate) fn advance(
    here: Here,
    partials: &mut Vec<Unfinished>,
    coming: Coming,
    tail: &Told<u8>,
    bytes: &[u8],
    came: usize,
    whole: &mut List<Whole>,
) -> Result<Option<Coming>, FeedFault>
    requires comes { ComesSo here.limit coming tail.now.items partials.old.items }
    requires came { came ≡ length (tail.now.items ++ bytes.now) }
    requires filled { IsFilled (at_coming here coming tail.now.items bytes.now partials.old.items) }
    ensures { Advances result (at_coming here coming tail.now.items bytes.now partials.old.items) partials.new.items whole.old.items whole.new.items }
{
    match coming {
        Coming::Head(head) => grow_head(here, partials, head, bytes, whole),
        Coming::Open(opened) => grow_opened(here, partials, opened, tail, bytes, came, whole),
    }
}
