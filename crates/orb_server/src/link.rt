//! A connection: its two sides, each in a thread of its own where one can be made.
ghost use Rattle.std.specs.Prelude.{◌≡◌, ◌<◌, []};
ghost use Rattle.std.specs.Thread.{IsSync, IsSend};
ghost use Rattle.orb_base.specs.Outside.{IsNewSource, IsNewSink};
ghost use Rattle.lane_pool.specs.Returned.{IsHome};
ghost use Rattle.lane_pool.specs.Turns.{Listens, heard_by, HasEnded, Writes, Rests};
ghost use Rattle.conn_sides.specs.ReadSides.{ReadsSide};
ghost use Rattle.conn_sides.specs.WriteSides.{WritesSide};
ghost use Rattle.orb_server.specs.Slots.{ServesOne};
ghost use Rattle.orb_server.specs.Threads.{IsPoolOf};

use crate::run::ConnLog;
use adapter_policies::Setup;
use conn_sides::{ReadSideEnd, WriteEnd, read_side, refuse_side, write_side};
use lane_pool::{LanePool, ReaderPass, SlotPass, WriterPass};
use orb_base::{Sink, Source};
use std::alloc::Global;
use std::snapshot::Snapshot;
use std::sync::Wait;
use std::thread;
use std::thread::{Promise, Scope, Threads};

/// What the reading side leaves.
#[derive(Drop)]
struct ReadSide<I> {
    pass: ReaderPass,
    source: I,
    end: ReadSideEnd,
}

/// What the writing side leaves.
#[derive(Drop)]
struct WriteSide<O> {
    pass: WriterPass,
    sink: O,
    end: WriteEnd,
}

/// The reading side of a connection.
#[tactic(auto, using(crate::proofs::Serving::pool_is))]
fn read_whole<I: Source, R: Wait>(
    rt: &R,
    alloc: Global,
    setup: &Setup,
    pool: &LanePool,
    pass: ReaderPass,
    source: I,
) -> ReadSide<I>
    requires listens { Listens pool.now.cell pass }
    requires unheard { heard_by pass ≡ 0 }
    requires opened { IsPoolOf setup.now pool.now.cell }
    ensures ended { HasEnded pool.now.cell result.pass }
    ensures reads { ReadsSide pool.now.cell setup.now result.end pass result.pass (I.state source) (I.state result.source) }
{
    let mut pass = pass;
    let mut source = source;
    let end = read_side(rt, alloc, &mut source, setup, pool, &mut pass);
    ReadSide { pass, source, end }
}

/// The writing side of a connection.
fn write_whole<O: Sink, R: Wait>(rt: &R, pool: &LanePool, pass: WriterPass, sink: O) -> WriteSide<O>
    requires { Writes pool.now.cell pass }
    ensures { WritesSide pool.now.cell result.end pass result.pass (O.state sink) (O.state result.sink) }
{
    let mut pass = pass;
    let mut sink = sink;
    let end = write_side(rt, &mut sink, pool, &mut pass);
    WriteSide { pass, sink, end }
}

/// The two sides of a connection, before either has begun.
#[derive(Drop)]
struct Sides<I, O> {
    reader: ReaderPass,
    writer: WriterPass,
    source: I,
    sink: O,
}

/// What the thread of a writing side promises: it comes out as `write_side` says.
#[derive(Drop)]
struct Writing<O> {
    pool: Snapshot<LanePool>,
    pass: Snapshot<WriterPass>,
    sink: Snapshot<O>,
}

impl<O: Sink> Promise<WriteSide<O>> for Writing<O> {
    ghost kept_by = { λ p r. WritesSide p.pool.value.cell r.end p.pass.value r.pass (O.state p.sink.value) (O.state r.sink) };
}

/// Ends a connection of which nothing is read, since there is no thread for its other side.
fn refuse_whole<I: Source, R: Wait>(
    rt: &R,
    setup: &Setup,
    pool: &LanePool,
    pass: ReaderPass,
    source: I,
) -> ReadSide<I>
    requires listens { Listens pool.now.cell pass }
    ensures ended { HasEnded pool.now.cell result.pass }
    ensures reads { ReadsSide pool.now.cell setup.now result.end pass result.pass (I.state source) (I.state result.source) }
{
    let mut pass = pass;
    let end = refuse_side(rt, setup, pool, &mut pass);
    ReadSide { pass, source, end }
}

/// The writing side in a thread of the scope, and the reading side here. Where no thread can be made, the connection is ended unread, and
/// what is owed to it then is written here: CloseConnection.
fn sides_in<'s, E, I: Source + Drop, O: Sink + Send + Drop + 's, R: Wait + Threads + Sync>(
    scope: &Scope<'s, E>,
    rt: &'s R,
    alloc: Global,
    setup: &Setup,
    pool: &'s LanePool,
    sides: Sides<I, O>,
) -> (WriteSide<O>, ReadSide<I>)
    requires reader { Listens pool.now.cell sides.reader × (heard_by sides.reader ≡ 0) }
    requires opened { IsPoolOf setup.now pool.now.cell }
    requires writer { Writes pool.now.cell sides.writer }
    ensures writes { WritesSide pool.now.cell result.0.end sides.writer result.0.pass (O.state sides.sink) (O.state result.0.sink) }
    ensures ended { HasEnded pool.now.cell result.1.pass }
    ensures reads { ReadsSide pool.now.cell setup.now result.1.end sides.reader result.1.pass (I.state sides.source) (I.state result.1.source) }
{
    let Sides {
        reader,
        writer,
        source,
        sink,
    } = sides;
    let promise = Writing {
        pool: Snapshot::of(pool),
        pass: Snapshot::of(&writer),
        sink: Snapshot::of(&sink),
    };
    let started = scope.spawn_with(
        promise,
        move || -> WriteSide<O>
            requires { IsSync R.row × IsSend O.row × Writes pool.now.cell writer }
            ensures { WritesSide pool.entry.now.cell result.end writer result.pass (O.state sink) (O.state result.sink) }
        { write_whole(rt, pool, writer, sink) },
    );
    match started {
        Ok(writing) => {
            let read = read_whole(rt, alloc, setup, pool, reader, source);
            (writing.join(rt), read)
        }
        Err(refused) => {
            let read = refuse_whole(rt, setup, pool, reader, source);
            ((refused.value)(), read)
        }
    }
}

/// Both sides of a connection, to their ends.
fn both_sides<I: Source + Drop, O: Sink + Send + Drop, R: Wait + Threads + Sync>(
    rt: &R,
    alloc: Global,
    setup: &Setup,
    pool: &LanePool,
    sides: Sides<I, O>,
) -> (WriteSide<O>, ReadSide<I>)
    requires reader { Listens pool.now.cell sides.reader × (heard_by sides.reader ≡ 0) }
    requires opened { IsPoolOf setup.now pool.now.cell }
    requires writer { Writes pool.now.cell sides.writer }
    ensures writes { WritesSide pool.now.cell result.0.end sides.writer result.0.pass (O.state sides.sink) (O.state result.0.sink) }
    ensures ended { HasEnded pool.now.cell result.1.pass }
    ensures reads { ReadsSide pool.now.cell setup.now result.1.end sides.reader result.1.pass (I.state sides.source) (I.state result.1.source) }
{
    thread::scope(
        thread::scope_env(),
        rt,
        move |scope| -> (WriteSide<O>, ReadSide<I>)
            requires { IsSync R.row × IsSend O.row × Listens pool.now.cell sides.reader × (heard_by sides.reader ≡ 0)
                × IsPoolOf setup.now pool.now.cell × Writes pool.now.cell sides.writer }
            ensures { WritesSide pool.entry.now.cell result.0.end sides.writer result.0.pass (O.state sides.sink) (O.state result.0.sink)
                × HasEnded pool.entry.now.cell result.1.pass
                × ReadsSide pool.entry.now.cell setup.entry.now result.1.end sides.reader result.1.pass (I.state sides.source) (I.state result.1.source) }
        { sides_in(scope, rt, alloc, setup, pool, sides) },
    )
}

/// Serves the slot's next connection. Its two sides go on by themselves, and the slot goes on after both.
#[tactic(auto, using(crate::proofs::Serving::room_there))]
pub fn serve_link<I: Source + Drop, O: Sink + Send + Drop, R: Wait + Threads + Sync>(
    rt: &R,
    alloc: Global,
    setup: &Setup,
    pool: &LanePool,
    pass: SlotPass,
    source: I,
    sink: O,
) -> (SlotPass, ConnLog<I, O>)
    requires rests { Rests pool.now.cell pass × (pass.nth < setup.now.per_slot) }
    requires home { IsHome pool.now.cell pass.who pass }
    requires opened { IsPoolOf setup.now pool.now.cell }
    requires source { IsNewSource (I.state source) }
    requires sink { IsNewSink (O.state sink) }
    ensures rests { Rests pool.now.cell result.0 }
    ensures one { ServesOne I.state O.state setup.now pool.now.cell pass result.0 (source, sink) result.1 }
{
    let Ok((reader, writer)) = pool.link(pass) else {
        unreachable!()
    };
    let id = reader.conn();
    let (written, read) = both_sides(
        rt,
        alloc,
        setup,
        pool,
        Sides {
            reader,
            writer,
            source,
            sink,
        },
    );
    let ReadSide {
        pass: reader,
        source,
        end: read,
    } = read;
    let WriteSide {
        pass: writer,
        sink,
        end: write,
    } = written;
    let pass = pool.unlink(reader, writer);
    let log = ConnLog {
        id,
        source,
        sink,
        read,
        write,
    };
    (pass, log)
}
