//! What a whole piece does to the unfinished messages.
ghost use Rattle.std.specs.Prelude.{◌≡◌, ◌≤◌, ◌<◌, ◌+◌, ◌-◌, ◌^◌, [], ◌∷◌, ◌++◌, length, slice_index, true, false, insert, OnOk, OnErr, IfOk};
ghost use Rattle.giop_frames.specs.Pieces.{has_more as has_more_of};
ghost use Rattle.giop_frames.specs.Headers.{BeginsWith};
ghost use Rattle.giop_frames.specs.Messages.{is_fragment as is_fragment_of, opens, sealed, joined};
ghost use Rattle.giop_frames.specs.Running.{stepped};
ghost use Rattle.giop_frames.specs.Steps.{written, IsSound, StepsBy, GrowsAt, Does};
ghost use Rattle.giop_frames.specs.Opening.{JoinsSo, own_part};

use crate::header::{HEADER, Header, kind_of};
use crate::kind::Kind;
use crate::opened::{Here, Joining};
use crate::unfinished::{Unfinished, place_of};
use crate::whole::Whole;
use cdr_core::bytes_of_u32;
use orb_base::{List, NoMemory, Octets, Order, Told};

fn give(whole: &mut List<Whole>, message: Whole) -> Result<(), NoMemory>
    ensures ok { OnOk result (whole.new.items ≡ whole.old.items ++ message ∷ []) }
    ensures err { OnErr result (whole.new.items ≡ whole.old.items) }
{
    match whole.push(message) {
        Ok(()) => Ok(()),
        Err(_) => Err(NoMemory),
    }
}

/// A first piece opens a message. Its bytes are not copied.
fn begin(
    partials: &mut Vec<Unfinished>,
    at: u64,
    header: Header,
    bytes: Octets,
) -> Result<(), NoMemory>
    requires header { BeginsWith header bytes.items }
    requires sound { IsSound partials.old.items bytes.items }
    requires first { opens bytes.items ≡ true }
    ensures { OnOk result (partials.new.items ≡ stepped (record { at = at; bytes = bytes.items }) partials.old.items) }
{
    let id = header.id_of(bytes.as_slice());
    partials.push(Unfinished {
        at,
        id,
        order: header.order,
        bytes,
    })?;
    Ok(())
}

fn grow_at(partials: &mut Vec<Unfinished>, i: usize, more: &[u8]) -> Result<(), NoMemory>
    requires { i < length partials.old.items }
    ensures { OnOk result (GrowsAt i more.now partials.old.items partials.new.items) }
{
    let u = &mut partials[i];
    u.bytes.append(more)
}

/// A middle Fragment joins its message: its bytes after the id are copied once more.
fn go_on(partials: &mut Vec<Unfinished>, header: Header, bytes: &[u8]) -> Result<(), NoMemory>
    requires header { BeginsWith header bytes.now }
    requires sound { IsSound partials.old.items bytes.now }
    requires fragment { is_fragment_of bytes.now ≡ true }
    requires more { has_more_of bytes.now ≡ true }
    ensures { OnOk result (StepsBy bytes.now partials.old.items partials.new.items) }
{
    match place_of(header.id_of(bytes), partials.as_slice()) {
        None => Ok(()),
        Some(i) => grow_at(partials, i, &bytes[16..]),
    }
}

/// Clears the fragment bit of a header and writes its size.
fn write_header(all: &mut [u8], size: [u8; 4])
    requires { 12 ≤ length all.old }
    ensures { all.new ≡ written all.old (slice_index all.old 6 - 2) size }
{
    all[6] = all[6].saturating_sub(2);
    all[8] = size[0];
    all[9] = size[1];
    all[10] = size[2];
    all[11] = size[3];
}

/// The joined bytes with the header of a whole message.
#[tactic(auto, using(crate::proofs::Sealing::sealed_by))]
fn seal(order: Order, bytes: Octets) -> Octets
    requires header { 12 ≤ length bytes.items }
    requires fits { length bytes.items < 2 ^ 32 }
    ensures { result.items ≡ sealed order bytes.items }
{
    let mut all = bytes.into_vec();
    let size = bytes_of_u32(order, (all.len() - HEADER) as u32);
    write_header(&mut all, size);
    List::from_vec(all)
}

/// The message that the last Fragment completes.
fn join(u: Unfinished, at: u64, bytes: &[u8]) -> Result<Whole, NoMemory>
    requires long { 16 ≤ length bytes.now }
    requires fits { length u.bytes + (length bytes.now - 16) < 2 ^ 32 }
    ensures { IfOk result (λ w. w ≡ joined (record { at = at; bytes = bytes.now }) u) }
{
    let order = u.order;
    let kind = kind_of(u.bytes.as_slice());
    let mut all = u.bytes;
    all.append(&bytes[16..])?;
    Ok(Whole {
        at,
        order,
        kind,
        bytes: seal(order, all),
    })
}

/// The last Fragment completes its message.
fn end(
    partials: &mut Vec<Unfinished>,
    at: u64,
    header: Header,
    bytes: &[u8],
    whole: &mut List<Whole>,
) -> Result<(), NoMemory>
    requires header { BeginsWith header bytes.now }
    requires sound { IsSound partials.old.items bytes.now }
    requires fragment { is_fragment_of bytes.now ≡ true }
    requires last { has_more_of bytes.now ≡ false }
    ensures ok { OnOk result (Does (record { at = at; bytes = bytes.now }) partials.old.items partials.new.items whole.old.items whole.new.items) }
    ensures err { OnErr result (whole.new.items ≡ whole.old.items) }
{
    match place_of(header.id_of(bytes), partials.as_slice()) {
        None => Ok(()),
        Some(i) => {
            let u = partials.remove(i);
            let message = join(u, at, bytes)?;
            give(whole, message)
        }
    }
}

/// A CancelRequest drops the unfinished message of its id.
fn cancel(partials: &mut Vec<Unfinished>, header: Header, bytes: &[u8])
    requires header { BeginsWith header bytes.now }
    requires sound { IsSound partials.old.items bytes.now }
    requires other { is_fragment_of bytes.now ≡ false }
    requires last { has_more_of bytes.now ≡ false }
    ensures { StepsBy bytes.now partials.old.items partials.new.items }
{
    if header.is(Kind::CancelRequest) && bytes.len() >= 16 {
        if let Some(i) = place_of(header.id_of(bytes), partials.as_slice()) {
            partials.remove(i);
        }
    }
}

/// A message of one piece. Its bytes are not copied.
fn lone(
    partials: &mut Vec<Unfinished>,
    at: u64,
    header: Header,
    bytes: Octets,
    whole: &mut List<Whole>,
) -> Result<(), NoMemory>
    requires header { BeginsWith header bytes.items }
    requires sound { IsSound partials.old.items bytes.items }
    requires other { is_fragment_of bytes.items ≡ false }
    requires last { has_more_of bytes.items ≡ false }
    ensures ok { OnOk result (Does (record { at = at; bytes = bytes.items }) partials.old.items partials.new.items whole.old.items whole.new.items) }
    ensures err { OnErr result (whole.new.items ≡ whole.old.items) }
{
    cancel(partials, header, bytes.as_slice());
    give(
        whole,
        Whole {
            at,
            order: header.order,
            kind: header.kind.number(),
            bytes,
        },
    )
}

/// A piece that is no Fragment and breaks no rule. Its bytes are not copied.
pub(crate) fn take_own(
    partials: &mut Vec<Unfinished>,
    at: u64,
    header: Header,
    bytes: Octets,
    whole: &mut List<Whole>,
) -> Result<(), NoMemory>
    requires header { BeginsWith header bytes.items }
    requires sound { IsSound partials.old.items bytes.items }
    requires other { is_fragment_of bytes.items ≡ false }
    ensures ok { OnOk result (Does (record { at = at; bytes = bytes.items }) partials.old.items partials.new.items whole.old.items whole.new.items) }
    ensures err { OnErr result (whole.new.items ≡ whole.old.items) }
{
    if header.more {
        begin(partials, at, header, bytes)
    } else {
        lone(partials, at, header, bytes, whole)
    }
}

/// A copy of bytes, of exactly their length.
fn copied(here: Here, bytes: &[u8]) -> Result<Octets, NoMemory>
    ensures { IfOk result (λ copy. copy.items ≡ bytes.now) }
{
    let mut copy = List::new(here.alloc);
    copy.reserve_exact(bytes.len())?;
    copy.append(bytes)?;
    Ok(copy)
}

/// Takes a whole piece that breaks no rule. Its bytes are copied once.
pub(crate) fn take_piece(
    here: Here,
    partials: &mut Vec<Unfinished>,
    header: Header,
    bytes: &[u8],
    whole: &mut List<Whole>,
) -> Result<(), NoMemory>
    requires header { BeginsWith header bytes.now }
    requires sound { IsSound partials.old.items bytes.now }
    ensures ok { OnOk result (Does (record { at = here.at; bytes = bytes.now }) partials.old.items partials.new.items whole.old.items whole.new.items) }
    ensures err { OnErr result (whole.new.items ≡ whole.old.items) }
{
    if header.is(Kind::Fragment) {
        if header.more {
            go_on(partials, header, bytes)
        } else {
            end(partials, here.at, header, bytes, whole)
        }
    } else {
        take_own(partials, here.at, header, copied(here, bytes)?, whole)
    }
}

/// Takes a whole Fragment whose bytes are at its message: the message goes back in its place, or it is complete.
pub(crate) fn end_joined(
    partials: &mut Vec<Unfinished>,
    at: u64,
    header: Header,
    joining: Joining,
    tail: &Told<u8>,
    whole: &mut List<Whole>,
) -> Result<(), NoMemory>
    requires header { BeginsWith header tail.now.items }
    requires joins { JoinsSo joining tail.now.items partials.old.items }
    requires sound { IsSound (insert partials.old.items joining.place (own_part joining)) tail.now.items }
    ensures ok { OnOk result (Does (record { at = at; bytes = tail.now.items }) (insert partials.old.items joining.place (own_part joining))
        partials.new.items whole.old.items whole.new.items) }
    ensures err { OnErr result (whole.new.items ≡ whole.old.items) }
{
    let Joining {
        place,
        message,
        own: _,
        kind,
    } = joining;
    if header.more {
        partials.insert(place, message)?;
        return Ok(());
    }
    let order = message.order;
    let bytes = seal(order, message.bytes);
    give(
        whole,
        Whole {
            at,
            order,
            kind,
            bytes,
        },
    )
}
