//! The whole link.
ghost use Rattle.std.specs.Prelude.{◌≡◌, ◌≤◌, IfOk, length};
ghost use Rattle.std.specs.Thread.{IsSync};
ghost use Rattle.client_mux.specs.declared.limits.TheConstants.{MAX_CALLERS, MAX_STARTS};
ghost use Rattle.client_mux.specs.Callers.{IsShort};
ghost use Rattle.shared_link.specs.Roles.{CanRead, CanLose, CanSend};
ghost use Rattle.shared_link.specs.Turns.{AreFrom};
ghost use Rattle.mux_runs.specs.Opened.{IsReadyFor};

use crate::links::callers::run_callers;
use crate::links::link_sink::LinkSink;
use crate::links::request::shared_request;
use client_mux::limits::{MAX_CALLERS, MAX_STARTS};
use giop_messages::Request;
use mux_sides::{read_side, write_side};
use orb_base::{Arc, NoMemory, Source};
use shared_link::{MuxSeat, RootSeat, Shared, open};
use std::alloc::Global;
use std::io::BufReader;
use std::net::{Net, TcpListener, TcpStream};
use std::sync::Wait;
use std::thread::Threads;
use std::time::{Clock, Duration, Instant};
use std::{io, thread};
use std_devices::StdSource;

/// What is to be timed.
#[derive(Drop)]
pub struct Wanted {
    pub host: String,
    pub port: u16,
    pub callers: u8,
    pub calls: u32,
}

/// What came of it.
#[derive(Drop)]
pub struct Timed {
    /// From the first call of a caller to the last reply.
    pub time: Duration,
    pub answered: u32,
}

/// An open link with its seats told apart.
#[derive(Drop)]
struct Ready {
    shared: Shared,
    root: RootSeat,
    seats: Vec<MuxSeat>,
    writer: MuxSeat,
    reader: MuxSeat,
}

/// Opens a link for so many callers.
fn open_link(alloc: Global, callers: u8) -> Result<Ready, NoMemory>
    requires some { 1 ≤ callers }
    requires few { callers ≤ MAX_CALLERS }
    ensures { IfOk result (λ r. IsReadyFor callers r.shared.cell r.root r.seats.items r.writer r.reader) }
{
    let opened = open(alloc, callers)?;
    let mut seats = opened.seats.into_vec();
    let Some(reader) = seats.pop() else {
        return Err(NoMemory);
    };
    let Some(writer) = seats.pop() else {
        return Err(NoMemory);
    };
    Ok(Ready {
        shared: opened.shared,
        root: opened.root,
        seats,
        writer,
        reader,
    })
}

/// Both halves of a link to the server, whose small writes go at once.
fn connect<R: Net<Listener = TcpListener, Stream = TcpStream>>(
    rt: &R,
    alloc: Global,
    wanted: &Wanted,
) -> io::Result<(StdSource<BufReader<TcpStream>>, LinkSink)> {
    let stream = TcpStream::connect(rt, (wanted.host.as_str(), wanted.port))?;
    stream.set_nodelay(true)?;
    let reader = BufReader::new(alloc, stream.try_clone()?)?;
    Ok((StdSource::new(reader), LinkSink { stream, faults: 0 }))
}

/// The writer.
fn write_whole<R: Wait>(rt: &R, alloc: Global, shared: &Shared, seat: MuxSeat, sink: LinkSink)
    requires { CanSend shared.now.cell seat × CanLose shared.now.cell seat }
{
    let mut seat = seat;
    let mut sink = sink;
    write_side(rt, alloc, &mut sink, shared, &mut seat);
}

/// The reader.
fn read_whole<I: Source + Drop, R: Wait>(
    rt: &R,
    alloc: Global,
    shared: &Shared,
    seat: MuxSeat,
    source: I,
)
    requires { CanRead shared.now.cell 0 seat × CanLose shared.now.cell seat }
{
    let mut seat = seat;
    let mut source = source;
    read_side(rt, alloc, &mut source, shared, &mut seat);
}

/// What the callers begin with.
#[derive(Drop)]
struct Crew {
    seats: Vec<MuxSeat>,
    request: Arc<Request>,
    calls: u32,
}

/// Times the callers.
fn time_callers<R: Wait + Threads + Clock + Sync>(
    rt: &R,
    shared: &Shared,
    crew: Crew,
) -> io::Result<Timed>
    requires { AreFrom shared.now.cell 1 crew.seats.items × (length crew.seats.items ≤ shared.now.cell.terms.opening.callers)
        × (crew.calls ≤ MAX_STARTS) × IsShort crew.request }
{
    let Crew {
        seats,
        request,
        calls,
    } = crew;
    let start = Instant::now(rt);
    let answered = run_callers(rt, shared, seats, &request, calls);
    Ok(Timed {
        time: start?.elapsed(rt)?,
        answered,
    })
}

/// The callers beside the reader.
fn call_and_read<I: Source + Send + Drop, R: Wait + Threads + Clock + Sync>(
    rt: &R,
    alloc: Global,
    shared: &Shared,
    crew: Crew,
    reader: MuxSeat,
    source: I,
) -> io::Result<Timed>
    requires crew { AreFrom shared.now.cell 1 crew.seats.items × (length crew.seats.items ≤ shared.now.cell.terms.opening.callers)
        × (crew.calls ≤ MAX_STARTS) × IsShort crew.request }
    requires reader { CanRead shared.now.cell 0 reader × CanLose shared.now.cell reader }
{
    let (timed, ()) = thread::join(
        rt,
        move || -> io::Result<Timed>
            requires { IsSync R.row × AreFrom shared.now.cell 1 crew.seats.items
                × (length crew.seats.items ≤ shared.now.cell.terms.opening.callers) × (crew.calls ≤ MAX_STARTS) × IsShort crew.request }
        { time_callers(rt, shared, crew) },
        move ||
            requires { CanRead shared.now.cell 0 reader × CanLose shared.now.cell reader }
        { read_whole(rt, alloc, shared, reader, source) },
    );
    timed
}

/// Times the callers beside a writer and the reader, each in a thread of its own where one can be made.
#[tactic(auto, using(mux_runs::proofs::WholeRuns::sends_first, mux_runs::proofs::WholeRuns::reads_first))]
fn time_ready<R: Wait + Threads + Clock + Sync>(
    rt: &R,
    alloc: Global,
    ready: Ready,
    request: Arc<Request>,
    wanted: &Wanted,
    link: (StdSource<BufReader<TcpStream>>, LinkSink),
) -> io::Result<Timed>
    requires opened { IsReadyFor wanted.now.callers ready.shared.cell ready.root ready.seats.items ready.writer ready.reader }
    requires short { IsShort request }
    requires few { wanted.now.calls ≤ MAX_STARTS }
{
    let (source, sink) = link;
    let Ready {
        shared,
        root: _root,
        seats,
        writer,
        reader,
    } = ready;
    let crew = Crew {
        seats,
        request,
        calls: wanted.calls,
    };
    let shared = &shared;
    let ((), timed) = thread::join(
        rt,
        move ||
            requires { CanSend shared.now.cell writer × CanLose shared.now.cell writer }
        { write_whole(rt, alloc, shared, writer, sink) },
        move || -> io::Result<Timed>
            requires { IsSync R.row × AreFrom shared.now.cell 1 crew.seats.items
                × (length crew.seats.items ≤ shared.now.cell.terms.opening.callers) × (crew.calls ≤ MAX_STARTS) × IsShort crew.request
                × CanRead shared.now.cell 0 reader × CanLose shared.now.cell reader }
        { call_and_read(rt, alloc, shared, crew, reader, source) },
    );
    timed
}

/// Connects, and times the callers; None where there are too few or too many callers or calls, or memory is out.
pub fn time_link<
    R: Wait + Threads + Clock + Sync + Net<Listener = TcpListener, Stream = TcpStream>,
>(rt: &R, alloc: Global, wanted: &Wanted) -> io::Result<Option<Timed>> {
    if wanted.callers == 0 || wanted.callers > MAX_CALLERS || wanted.calls as usize > MAX_STARTS {
        return Ok(None);
    }
    let (Ok(ready), Some(request)) = (open_link(alloc, wanted.callers), shared_request(alloc))
    else {
        return Ok(None);
    };
    let link = connect(rt, alloc, wanted)?;
    let timed = time_ready(rt, alloc, ready, request, wanted, link)?;
    Ok(Some(timed))
}
