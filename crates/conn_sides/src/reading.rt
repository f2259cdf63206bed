//! The reading side of a connection.
ghost use Rattle.std.specs.Prelude.{◌≡◌};
ghost use Rattle.orb_base.specs.Outside.{SourceState};
ghost use Rattle.orb_base.specs.Pool.{IsWellFormed};
ghost use Rattle.conn_engine.specs.Hearers.{IsNew};
ghost use Rattle.lane_pool.specs.Pass.{conn_of};
ghost use Rattle.lane_pool.specs.Turns.{Reads, Listens, HasEnded, heard_by};
ghost use Rattle.conn_sides.specs.ReadSides as Spec;
ghost use Rattle.conn_sides.specs.declared.read_side_end.ReadSideEnd.TheVariants as side_end;

use crate::hearing::hear_piece;
use crate::read_side_end::ReadSideEnd;
use adapter_policies::Setup;
use conn_engine::{Hearing, MAX_TAKEN, READ_LEN, ReadEnd};
use heard_calls::Ending;
use lane_machine::How;
use lane_pool::{LanePool, ReaderPass};
use orb_base::{Got, NoMemory, Source};
use std::alloc::Global;
use std::sync::Wait;

/// How the connection is ended: by MessageError where its bytes broke a rule; by CloseConnection where too many came, where a limit of
/// the run was met and where memory was wanting; and else in silence.
fn how_by(end: ReadSideEnd) -> How
    ensures { result ≡ Spec.how_by end }
{
    match end {
        ReadSideEnd::Read(ReadEnd::Ended(Ending::Ended)) => How::Quiet,
        ReadSideEnd::Read(ReadEnd::Ended(Ending::Cut(_))) => How::Quiet,
        ReadSideEnd::Read(ReadEnd::Ended(Ending::Broken { .. })) => How::Bad,
        ReadSideEnd::Read(ReadEnd::Spent) => How::Shut,
        ReadSideEnd::Read(ReadEnd::ReadFault) => How::Quiet,
        ReadSideEnd::RunClosed => How::Shut,
        ReadSideEnd::NoMemory => How::Shut,
    }
}

/// Reads a connection from its first byte on, `READ_LEN` bytes at a time at most, and makes the calls of each read before the next one.
fn hear_reads<I: Source, R: Wait>(
    rt: &R,
    alloc: Global,
    source: &mut I,
    setup: &Setup,
    pool: &LanePool,
    pass: &mut ReaderPass,
    hearing: Hearing<'_>,
) -> ReadSideEnd
    requires new { IsNew setup.now (conn_of pass.old) hearing }
    requires listens { Listens pool.now.cell pass.old }
    requires unheard { heard_by pass.old ≡ 0 }
    requires well_formed { IsWellFormed setup.now.pool }
    requires pool { pool.now.cell.terms.opening.pool ≡ setup.now.pool }
    ensures hears { Spec.HearsReads pool.now.cell setup.now result pass.old pass.new (I.state source.old) (I.state source.new) }
    ensures reads { Reads pool.now.cell pass.new }
{
    let mut hearing = hearing;
    let mut piece = [0u8; READ_LEN];
    let mut taken = 0;
    while taken < MAX_TAKEN {
        let space = piece.len().min(MAX_TAKEN - taken);
        match source.read(&mut piece[..space]) {
            Got::Bytes(n) => {
                taken += n;
                let bytes = &piece[..n];
                match hear_piece(rt, alloc, pool, pass, &mut hearing, bytes) {
                    Some(end) => return end,
                    None => {}
                }
            }
            Got::End => return ReadSideEnd::Read(ReadEnd::Ended(hearing.at_end())),
            Got::Failed => return ReadSideEnd::Read(ReadEnd::ReadFault),
        }
    }
    ReadSideEnd::Read(ReadEnd::Spent)
}

/// Reads a connection from its first byte on.
fn hear_all<I: Source, R: Wait>(
    rt: &R,
    alloc: Global,
    source: &mut I,
    setup: &Setup,
    pool: &LanePool,
    pass: &mut ReaderPass,
) -> ReadSideEnd
    requires listens { Listens pool.now.cell pass.old }
    requires unheard { heard_by pass.old ≡ 0 }
    requires well_formed { IsWellFormed setup.now.pool }
    requires pool { pool.now.cell.terms.opening.pool ≡ setup.now.pool }
    ensures hears { Spec.HearsReads pool.now.cell setup.now result pass.old pass.new (I.state source.old) (I.state source.new) }
    ensures reads { Reads pool.now.cell pass.new }
{
    match Hearing::new(alloc, setup, pass.conn()) {
        Ok(hearing) => hear_reads(rt, alloc, source, setup, pool, pass, hearing),
        Err(NoMemory) => ReadSideEnd::NoMemory,
    }
}

/// The reading side of a connection to a server of this setup: reads from its first byte on, `READ_LEN` bytes at a time at most, makes by
/// the pass the calls that the bytes mean, those of each read before the next one, and ends the connection. It stops where the bytes end
/// the reading, at the end of the input, after `MAX_TAKEN` bytes, at a failed read, at a call that is answered Closing, and at want of
/// memory. Each read and each call may wait. Memory and work are those of framing and hearing.
pub fn read_side<I: Source, R: Wait>(
    rt: &R,
    alloc: Global,
    source: &mut I,
    setup: &Setup,
    pool: &LanePool,
    pass: &mut ReaderPass,
) -> ReadSideEnd
    requires listens { Listens pool.now.cell pass.old }
    requires unheard { heard_by pass.old ≡ 0 }
    requires well_formed { IsWellFormed setup.now.pool }
    requires pool { pool.now.cell.terms.opening.pool ≡ setup.now.pool }
    ensures side { Spec.ReadsSide pool.now.cell setup.now result pass.old pass.new (I.state source.old) (I.state source.new) }
    ensures ended { HasEnded pool.now.cell pass.new }
{
    let end = hear_all(rt, alloc, source, setup, pool, pass);
    pool.end(rt, pass, how_by(end));
    end
}

/// Ends a connection of which nothing is read, as where memory ran out before its first read: it is closed by CloseConnection. Takes no
/// memory. The call may wait.
pub fn refuse_side<R: Wait>(
    rt: &R,
    setup: &Setup,
    pool: &LanePool,
    pass: &mut ReaderPass,
) -> ReadSideEnd
    requires listens { Listens pool.now.cell pass.old }
    // Whatever source the connection has, nothing of it was read.
    ensures side { (from : SourceState) → Spec.ReadsSide pool.now.cell setup.now result pass.old pass.new from from }
    ensures ended { HasEnded pool.now.cell pass.new }
    ensures refused { result ≡ side_end.NoMemory }
{
    let end = ReadSideEnd::NoMemory;
    pool.end(rt, pass, how_by(end));
    end
}
