//! Files of the system, and requests over loopback.

use orb_base::{Filed, Files, List, MemSink, Octets, Sink, Source, SteadySource, Text};
use orb_command::orb_main;
use orb_nets::Net;
use std::alloc::Global;
use std::net::{TcpListener, TcpStream};
use std::sync::Wait;
use std::thread::Threads;
use std::time::Duration;
use std::{fs, net, rt, thread};
use system_devices::{RunDoor, StdFiles, StdNet};
use text_streams::{ReadAll, WriteAll, read_all, write_all};

/// CloseConnection. CORBA 3.0.3, section 15.4.7.
const CLOSE: &[u8] = b"GIOP\x01\x02\0\x05\0\0\0\0";

/// Names of files, the bytes that they may have, and how each is told where `four.txt` alone is there, of four bytes.
const FILES: &[(&[u8], usize, Filed)] = &[
    (b"four.txt", 4, Filed::Whole),
    (b"four.txt", 3, Filed::TooLong),
    (b"five.txt", 4, Filed::Absent),
    (b"four.txt/five.txt", 4, Filed::Absent),
    (b".", 4, Filed::Failed),
    (b"\xff", 4, Filed::Absent),
];

/// Whether a file is told so, and its bytes are there where it is whole alone.
fn is_told<F: Files>(
    alloc: Global,
    files: &mut F,
    into: &mut Octets,
    row: &(&[u8], usize, Filed),
) -> bool {
    let (name, limit, filed) = *row;
    match Text::new(alloc, name) {
        Ok(name) => {
            files.read(&name, limit, into) == filed && into.is_empty() == (filed != Filed::Whole)
        }
        Err(_) => false,
    }
}

fn all_are_told<F: Files>(alloc: Global, files: &mut F, into: &mut Octets) -> bool {
    for row in FILES {
        if !is_told(alloc, files, into, row) {
            return false;
        }
    }
    true
}

fn files_are_told<R: rt::Files>(rt: &R, alloc: Global) -> bool {
    let mut files = StdFiles::new(rt, alloc);
    let mut into = Octets::new(alloc);
    all_are_told(alloc, &mut files, &mut into)
}

#[test]
fn files_are_told_apart(rt: HostRuntime) {
    assert!(rt; fs::write(&rt, "four.txt", "four").is_ok());
    assert!(rt; files_are_told(&rt, rt.alloc()));
    assert!(rt; fs::remove_file(&rt, "four.txt").is_ok());
}

/// One slot of one connection.
const ONE: &str =
    "server = { slots = 1, per_slot = 1 }\npool = { static = 1, dynamic = 0, default_priority = 100 }\nadapter = [{ name = \"main\", model = \"CLIENT_PROPAGATED\", priority = 100 }]\nobject = [{ key = \"ping\", adapter = \"main\", interface = \"IDL:Orb/Ping:1.0\" }]\n";

/// The request of id 1 for `current` of `ping` and then a CloseConnection, and the reply, a short: CORBA 3.0.3, sections 15.4.2, 15.4.3 and
/// 15.4.7.
const PING_AND_CLOSE: &[u8] =
    b"GIOP\x01\x02\0\0\0\0\0\x24\0\0\0\x01\x03\0\0\0\0\0\0\0\0\0\0\x04ping\0\0\0\x08current\0\0\0\0\0GIOP\x01\x02\0\x05\0\0\0\0";

const REPLY: &[u8] = b"GIOP\x01\x02\0\x01\0\0\0\x0e\0\0\0\x01\0\0\0\0\0\0\0\0\0\x64";

const LINE: &[u8] = b"calls 1 run 1 lent 0 kept 0 full 0 removed 0 connections 1\n";

/// Puts a word behind the others; whether there was memory.
fn put_word(alloc: Global, words: &mut Vec<String>, word: &str) -> bool {
    match String::from_str(alloc, word) {
        Ok(word) => words.push(word).is_ok(),
        Err(_) => false,
    }
}

/// Puts the words of a server of this file of configuration, which listens at this port of loopback.
fn put_words(alloc: Global, words: &mut Vec<String>, config: &str, port: u16) -> bool {
    for word in ["serve", "--config", config, "--listen"] {
        if !put_word(alloc, words, word) {
            return false;
        }
    }
    match format!(in alloc; "127.0.0.1:{port}") {
        Ok(word) => words.push(word).is_ok(),
        Err(_) => false,
    }
}

/// Whether a server of these words writes this summary.
fn sums_up<
    R: net::Net<Listener = TcpListener, Stream = TcpStream> + rt::Files + Wait + Threads + Sync,
>(rt: &R, alloc: Global, words: &[String], line: &[u8]) -> bool {
    let door = RunDoor::new();
    let mut net = StdNet::new(rt, alloc, &door);
    let mut files = StdFiles::new(rt, alloc);
    let mut input = SteadySource::new(List::new(alloc), List::new(alloc));
    let mut out = MemSink::new(alloc, List::new(alloc), List::new(alloc));
    let _answered = orb_main(rt, alloc, words, &mut net, &mut files, &mut input, &mut out);
    out.held() == line
}

/// The same of the server of a file of configuration that listens at this port of loopback.
fn serve<
    R: net::Net<Listener = TcpListener, Stream = TcpStream> + rt::Files + Wait + Threads + Sync,
>(rt: &R, alloc: Global, config: &str, port: u16, line: &[u8]) -> bool {
    let mut words = Vec::new(alloc);
    put_words(alloc, &mut words, config, port) && sums_up(rt, alloc, words.as_slice(), line)
}

/// Whether a server sends these bytes and closes.
fn is_answered<I: Source, O: Sink>(
    alloc: Global,
    source: &mut I,
    sink: &mut O,
    want: &[u8],
) -> bool {
    if write_all(sink, PING_AND_CLOSE) != WriteAll::Whole {
        return false;
    }
    let is_it = match read_all(alloc, 1_000, source) {
        ReadAll::Whole(bytes) => bytes.as_slice() == want,
        _ => false,
    };
    sink.close();
    is_it
}

/// The same of the server at this port of loopback. It is asked again while nobody listens there.
fn ask<R: net::Net<Listener = TcpListener, Stream = TcpStream> + rt::Clock + Wait + Sync>(
    rt: &R,
    alloc: Global,
    port: u16,
    want: &[u8],
) -> bool {
    let Ok(host) = Text::new(alloc, b"127.0.0.1") else {
        return false;
    };
    let door = RunDoor::new();
    let mut net = StdNet::new(rt, alloc, &door);
    for _ in 0..1_000 {
        if let Ok((mut source, mut sink)) = net.connect(&host, port) {
            return is_answered(alloc, &mut source, &mut sink, want);
        }
        thread::sleep(rt, Duration::from_millis(10));
    }
    false
}

/// The same of two clients, of which the second connects once the first has read the end of its stream.
fn ask_twice<R: net::Net<Listener = TcpListener, Stream = TcpStream> + rt::Clock + Wait + Sync>(
    rt: &R,
    alloc: Global,
    port: u16,
    first: &[u8],
    second: &[u8],
) -> bool {
    ask(rt, alloc, port, first) && ask(rt, alloc, port, second)
}

/// A port of loopback at which nobody listens.
fn free_port<R: net::Net<Listener = TcpListener, Stream = TcpStream>>(rt: &R) -> Option<u16> {
    let listener = TcpListener::bind(rt, ("127.0.0.1", 0)).ok()?;
    match listener.local_addr() {
        Ok(at) => Some(at.port()),
        Err(_) => None,
    }
}

#[test]
fn a_request_is_served_over_loopback(rt: HostRuntime) {
    let alloc = rt.alloc();
    let port = free_port(&rt).unwrap_or(0);
    assert!(rt; fs::write(&rt, "one.toml", ONE).is_ok());
    let (served, replied) = thread::join(
        &rt,
        || serve(&rt, alloc, "one.toml", port, LINE),
        || ask(&rt, alloc, port, REPLY),
    );
    assert!(rt; served && replied);
    assert!(rt; fs::remove_file(&rt, "one.toml").is_ok());
}

/// The status of `orb` with these words, and whether it writes these bytes.
fn main_of<
    R: net::Net<Listener = TcpListener, Stream = TcpStream> + rt::Files + Wait + Threads + Sync,
>(rt: &R, alloc: Global, words: &[String], line: &[u8]) -> (u8, bool) {
    let door = RunDoor::new();
    let mut net = StdNet::new(rt, alloc, &door);
    let mut files = StdFiles::new(rt, alloc);
    let mut input = SteadySource::new(List::new(alloc), List::new(alloc));
    let mut out = MemSink::new(alloc, List::new(alloc), List::new(alloc));
    let answered = orb_main(rt, alloc, words, &mut net, &mut files, &mut input, &mut out);
    (answered.status, out.held() == line)
}

/// Puts the words of a call of `current` of the object `ping` at this port of loopback, of which nothing but its interface is known.
fn put_call(alloc: Global, words: &mut Vec<String>, port: u16) -> bool {
    for word in [
        "call",
        "--op",
        "current",
        "--interface",
        "IDL:Orb/Ping:1.0",
        "--ref",
    ] {
        if !put_word(alloc, words, word) {
            return false;
        }
    }
    match format!(in alloc; "corbaloc::1.2@127.0.0.1:{port}/ping") {
        Ok(word) => words.push(word).is_ok(),
        Err(_) => false,
    }
}

/// Whether a call of these words ends with this status and writes this line. It is made again while nobody listens there, but where that
/// is wanted.
fn ends_with<
    R: net::Net<Listener = TcpListener, Stream = TcpStream>
        + rt::Files
        + rt::Clock
        + Wait
        + Threads
        + Sync,
>(rt: &R, alloc: Global, words: &[String], status: u8, line: &[u8]) -> bool {
    for _ in 0..1_000 {
        let (got, is_line) = main_of(rt, alloc, words, line);
        if got == status || got != 5 {
            return got == status && is_line;
        }
        thread::sleep(rt, Duration::from_millis(10));
    }
    false
}

/// The same of the call of `put_call`.
fn call<
    R: net::Net<Listener = TcpListener, Stream = TcpStream>
        + rt::Files
        + rt::Clock
        + Wait
        + Threads
        + Sync,
>(rt: &R, alloc: Global, port: u16, status: u8, line: &[u8]) -> bool {
    let mut words = Vec::new(alloc);
    put_call(alloc, &mut words, port) && ends_with(rt, alloc, words.as_slice(), status, line)
}

#[test]
fn a_call_is_served_over_loopback(rt: HostRuntime) {
    let alloc = rt.alloc();
    let port = free_port(&rt).unwrap_or(0);
    assert!(rt; fs::write(&rt, "called.toml", ONE).is_ok());
    let (served, called) = thread::join(
        &rt,
        || serve(&rt, alloc, "called.toml", port, LINE),
        || call(&rt, alloc, port, 0, b"[100]\n"),
    );
    assert!(rt; served && called);
    assert!(rt; fs::remove_file(&rt, "called.toml").is_ok());
}

#[test]
fn a_call_where_nobody_listens_is_a_fault_of_the_net(rt: HostRuntime) {
    let port = free_port(&rt).unwrap_or(0);
    assert!(rt; call(&rt, rt.alloc(), port, 5, b""));
}

/// Three lanes, and an object with the bands 0 to 99 and 100 to 200.
const BANDED: &str =
    "server = { slots = 1, per_slot = 1 }\npool = { lanes = [{ priority = 50, static = 1, dynamic = 0 }, { priority = 100, static = 1, dynamic = 0 }, { priority = 150, static = 1, dynamic = 0 }] }\nadapter = [{ name = \"main\", model = \"CLIENT_PROPAGATED\", priority = 100, bands = [{ low = 0, high = 99 }, { low = 100, high = 200 }] }]\nobject = [{ key = \"ping\", adapter = \"main\", interface = \"IDL:Orb/Ping:1.0\" }]\n";

/// The bind of a band is a call that is posted and does not run.
const BANDED_LINE: &[u8] = b"calls 2 run 1 lent 0 kept 0 full 0 removed 0 connections 1\n";

/// The reference of that object at 127.0.0.1, before and after its port.
const BANDED_IOR: (&str, &str) = (
    "IOR:000000000000001149444c3a4f72622f50696e673a312e300000000000000001000000000000005c000102000000000a3132372e302e302e3100",
    "0000000470696e670000000100000002000000340000000000000002000000280000000a0000000000000000006400000000002d00000010000000000000000200000063006400c8",
);

/// Puts the words of a call of `current` at the priority 150, by that reference with this port.
fn put_banded_call(alloc: Global, words: &mut Vec<String>, port: u16) -> bool {
    for word in ["call", "--op", "current", "--priority", "150", "--ref"] {
        if !put_word(alloc, words, word) {
            return false;
        }
    }
    let (front, back) = BANDED_IOR;
    match format!(in alloc; "{front}{port:04x}{back}") {
        Ok(word) => words.push(word).is_ok(),
        Err(_) => false,
    }
}

/// Whether such a call writes the line of the priority 150.
fn call_in_a_band<
    R: net::Net<Listener = TcpListener, Stream = TcpStream>
        + rt::Files
        + rt::Clock
        + Wait
        + Threads
        + Sync,
>(rt: &R, alloc: Global, port: u16) -> bool {
    let mut words = Vec::new(alloc);
    put_banded_call(alloc, &mut words, port)
        && ends_with(rt, alloc, words.as_slice(), 0, b"[150]\n")
}

#[test]
fn a_call_binds_its_band_over_loopback(rt: HostRuntime) {
    let alloc = rt.alloc();
    let port = free_port(&rt).unwrap_or(0);
    assert!(rt; fs::write(&rt, "banded.toml", BANDED).is_ok());
    let (served, called) = thread::join(
        &rt,
        || serve(&rt, alloc, "banded.toml", port, BANDED_LINE),
        || call_in_a_band(&rt, alloc, port),
    );
    assert!(rt; served && called);
    assert!(rt; fs::remove_file(&rt, "banded.toml").is_ok());
}

/// One slot of two connections.
const TWO: &str =
    "server = { slots = 1, per_slot = 2 }\npool = { static = 1, dynamic = 0, default_priority = 100 }\nadapter = [{ name = \"main\", model = \"CLIENT_PROPAGATED\", priority = 100 }]\nobject = [{ key = \"ping\", adapter = \"main\", interface = \"IDL:Orb/Ping:1.0\" }]\n";

const TWO_LINE: &[u8] = b"calls 2 run 2 lent 0 kept 0 full 0 removed 0 connections 2\n";

/// A writing side that never closes its sink is refused: the first client would wait for the end of its stream, and the slot for the
/// second client. So is one that closes before its last write, since a closed link takes nothing more.
#[test]
fn a_second_client_comes_after_the_end_of_the_first(rt: HostRuntime) {
    let alloc = rt.alloc();
    let port = free_port(&rt).unwrap_or(0);
    assert!(rt; fs::write(&rt, "two.toml", TWO).is_ok());
    let (served, replied) = thread::join(
        &rt,
        || serve(&rt, alloc, "two.toml", port, TWO_LINE),
        || ask_twice(&rt, alloc, port, REPLY, REPLY),
    );
    assert!(rt; served && replied);
    assert!(rt; fs::remove_file(&rt, "two.toml").is_ok());
}

/// Two slots, and a run that hears one call.
const LIMIT: &str =
    "server = { slots = 2, per_slot = 2, max_calls = 1 }\npool = { static = 1, dynamic = 0, default_priority = 100 }\nadapter = [{ name = \"main\", model = \"CLIENT_PROPAGATED\", priority = 100 }]\nobject = [{ key = \"ping\", adapter = \"main\", interface = \"IDL:Orb/Ping:1.0\" }]\n";

const LIMIT_LINE: &[u8] = b"calls 1 run 1 lent 0 kept 0 full 0 removed 0 connections 2\n";

/// A server whose slots go on waiting for a link is refused: the second client's call closes the run, and no third client comes to end
/// the wait of the other slot.
#[test]
fn a_slot_that_waits_is_woken_where_the_run_closes(rt: HostRuntime) {
    let alloc = rt.alloc();
    let port = free_port(&rt).unwrap_or(0);
    assert!(rt; fs::write(&rt, "limit.toml", LIMIT).is_ok());
    let (served, replied) = thread::join(
        &rt,
        || serve(&rt, alloc, "limit.toml", port, LIMIT_LINE),
        || ask_twice(&rt, alloc, port, REPLY, CLOSE),
    );
    assert!(rt; served && replied);
    assert!(rt; fs::remove_file(&rt, "limit.toml").is_ok());
}
