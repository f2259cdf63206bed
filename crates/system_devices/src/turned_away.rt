//! Links that nobody serves.

use crate::std_links::{Fresh, StdAcceptor, is_passing};
use orb_base::List;
use std::alloc::Global;
use std::io::{Read, Write};
use std::net;
use std::net::{Shutdown, TcpListener, TcpStream};
use std::time::Duration;

/// CloseConnection: nothing of what the peer sent was run. CORBA 3.0.3, section 15.4.7.
pub(crate) const CLOSE: &[u8] = b"GIOP\x01\x02\0\x05\0\0\0\0";

/// A Reply of 56 bytes, up to its id, and what comes after that: SYSTEM_EXCEPTION, no contexts, and TRANSIENT, minor 2 (own profile),
/// completed NO. CORBA 3.0.3, sections 4.12 and 15.4.3.
const REPLY: &[u8] = b"GIOP\x01\x02\0\x01\0\0\0\x38";

const TRANSIENT: &[u8] =
    b"\0\0\0\x02\0\0\0\0\0\0\0\x20IDL:omg.org/CORBA/TRANSIENT:1.0\0\0\0\0\x02\0\0\0\x01";

/// How many links that wait are turned away at most.
const MOST_TURNED_AWAY: u32 = 4_096;

/// How many pieces of what such a peer sent are passed over at most.
const MOST_PASSED_OVER: u32 = 64;

/// How long such a peer is waited for, in milliseconds.
const PATIENCE: u64 = 20;

/// Passes over what a peer sent, up to its end: a link that is let go with bytes unread is reset, and the peer may lose what it was
/// sent.
fn pass_over(stream: &mut TcpStream) {
    for _ in 0..MOST_PASSED_OVER {
        let mut piece = [0u8; 4096];
        match stream.read(&mut piece) {
            Ok(n) if n > 0 => {}
            _ => return,
        }
    }
}

/// The id of the request that these bytes begin, in big endian, where a reply to it is due: CORBA 3.0.3, section 15.4.2.
fn awaited(first: &[u8; 17]) -> Option<[u8; 4]> {
    if !first.starts_with(b"GIOP\x01\x02") || first[7] != 0 || first[16] & 1 == 0 {
        return None;
    }
    let mut id = [0u8; 4];
    id.copy_from_slice(&first[12..16]);
    if first[6] & 1 == 1 {
        id.reverse();
    }
    Some(id)
}

/// Replies to the request of this id that nothing ran; whether the link took that.
fn refuse(stream: &mut TcpStream, id: &[u8; 4]) -> bool {
    stream.write_all(REPLY).is_ok()
        && stream.write_all(id).is_ok()
        && stream.write_all(TRANSIENT).is_ok()
}

/// The first bytes of a link, of which these were read ahead. None where it ends before.
fn first_of(stream: &mut TcpStream, ahead: &[u8]) -> Option<[u8; 17]> {
    let mut first = [0u8; 17];
    let n = ahead.len().min(17);
    first[..n].copy_from_slice(&ahead[..n]);
    stream.read_exact(&mut first[n..]).ok()?;
    Some(first)
}

/// Tells a peer that nothing ran: by a reply to the request that came first, where one is due, and by CloseConnection.
fn tell(stream: &mut TcpStream, ahead: &[u8]) -> bool {
    if let Some(first) = first_of(stream, ahead)
        && let Some(id) = awaited(&first)
        && !refuse(stream, &id)
    {
        return false;
    }
    stream.write_all(CLOSE).is_ok()
}

/// Closes a link that wasn't served, of which these bytes were read, so that its peer knows that nothing ran.
fn turn_away(stream: TcpStream, ahead: &[u8]) {
    let mut stream = stream;
    let patience = Some(Duration::from_millis(PATIENCE));
    if stream.set_write_timeout(patience).is_ok()
        && stream.set_read_timeout(patience).is_ok()
        && tell(&mut stream, ahead)
        && stream.shutdown(Shutdown::Write).is_ok()
    {
        pass_over(&mut stream);
    }
}

/// Takes a link, or turns it away at once where there is no memory for it.
fn take(into: &mut Vec<TcpStream>, stream: TcpStream) {
    if let Err(failed) = into.push(stream) {
        turn_away(failed.value, &[]);
    }
}

/// Keeps a link that a slot kept, or turns it away at once where there is no memory for it.
fn keep(into: &mut Vec<Fresh>, fresh: Fresh) {
    if let Err(failed) = into.push(fresh) {
        turn_away_fresh(failed.value);
    }
}

/// Turns away a link that a slot kept.
fn turn_away_fresh(fresh: Fresh) {
    let Fresh { stream, reader } = fresh;
    turn_away(stream, reader.buffer());
}

/// Takes the links that wait at a listener.
fn take_waiting(listener: &TcpListener, into: &mut Vec<TcpStream>) {
    if listener.set_nonblocking(true).is_err() {
        return;
    }
    for _ in 0..MOST_TURNED_AWAY {
        match listener.accept() {
            Ok((stream, _)) => take(into, stream),
            Err(fault) if is_passing(&fault) => {}
            Err(_) => return,
        }
    }
}

/// Ends the listening: takes the links that wait, lets the listener go share by share, so that the next peer is refused at once, and
/// then turns away those that were taken.
pub fn end_listening<'a, R: net::Net<Listener = TcpListener, Stream = TcpStream>>(
    alloc: Global,
    acceptors: List<StdAcceptor<'a, R>>,
) {
    let mut kept = Vec::new(alloc);
    let mut waiting = Vec::new(alloc);
    for acceptor in acceptors.into_vec() {
        let (listener, fresh) = acceptor.into_parts();
        take_waiting(&listener, &mut waiting);
        if let Some(fresh) = fresh {
            keep(&mut kept, fresh);
        }
    }
    for fresh in kept {
        turn_away_fresh(fresh);
    }
    for stream in waiting {
        turn_away(stream, &[]);
    }
}
