//! Times the calls of several callers over one link.

mod callers;
mod link_sink;
mod request;
mod timing;

use crate::asked::number_at;
use std::io;
use std::net::{Net, TcpListener, TcpStream};
use std::sync::Wait;
use std::thread::Threads;
use std::time::Clock;
use timing::Wanted;

/// What the words ask for; `None` where they don't say it.
fn asked(words: &[String]) -> io::Result<Option<Wanted>> {
    let (Some(host), Some(port), Some(callers), Some(calls)) = (
        words.first(),
        number_at(words, 1),
        number_at(words, 2),
        number_at(words, 3),
    ) else {
        return Ok(None);
    };
    let (Ok(port), Ok(callers)) = (u16::try_from(port), u8::try_from(callers)) else {
        return Ok(None);
    };
    Ok(Some(Wanted {
        host: host.clone()?,
        port,
        callers,
        calls,
    }))
}

/// Times the callers by the words: the host and the port of a server that has `Orb::Ping` under the key `ping`, the
/// number of callers, 1 to 16, and the number of calls of each, at most 64. Without these it writes nothing.
pub fn bench<
    R: Wait
        + Threads
        + Clock
        + Sync
        + Net<Listener = TcpListener, Stream = TcpStream>
        + Print
        + AllocGlobal,
>(rt: &R, words: &[String]) -> io::Result<()> {
    let Some(wanted) = asked(words)? else {
        return Ok(());
    };
    match timing::time_link(rt, rt.alloc(), &wanted)? {
        Some(timed) => println!(rt; "{} calls answered in {:?}", timed.answered, timed.time),
        None => println!(rt; "the link could not be had"),
    }
}
