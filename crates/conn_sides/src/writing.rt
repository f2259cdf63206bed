//! The writing side of a connection.
ghost use Rattle.std.specs.Prelude.{◌≡◌};
ghost use Rattle.lane_machine.specs.declared.call.LaneCall.TheVariants.{Collect};
ghost use Rattle.item_writer.specs.ItemBytes.{item_bytes};
ghost use Rattle.pipe_laws.specs.Said.{handed_bytes, HandsShort};
ghost use Rattle.item_writer.specs.Shortness.{IsShort};
ghost use Rattle.lane_pool.specs.Pass.{conn_of};
ghost use Rattle.lane_pool.specs.Passes.{Makes};
ghost use Rattle.lane_pool.specs.Replies.{collected_reply};
ghost use Rattle.lane_pool.specs.Turns.{Writes, HasCollected};
ghost use Rattle.conn_sides.specs.WriteSides as Spec;
ghost use Rattle.conn_sides.specs.Saying.{SaysOn};

use crate::write_end::{LastCollect, WriteEnd};
use item_writer::{write_close, write_error, write_item};
use lane_pool::{Collected, LanePool, WriterPass};
use orb_base::{Item, Sink};
use std::sync::Wait;
use text_streams::WriteAll;

/// Collects once. What is handed over is short.
#[tactic(auto, using(crate::proofs::Collecting::hands_short))]
fn collect<R: Wait>(rt: &R, pool: &LanePool, pass: &mut WriterPass) -> Collected
    requires writes { Writes pool.now.cell pass.old }
    ensures made { Makes pool.now.cell (Collect (conn_of pass.old)) (collected_reply result) pass.old pass.new }
    ensures next { HasCollected pool.now.cell result pass.new }
    ensures short { HandsShort (collected_reply result) }
{
    pool.collect(rt, pass)
}

/// Closes the sink where a write has failed.
fn close_failed<O: Sink>(sink: &mut O, wrote: WriteAll) -> WriteAll
    ensures same { result ≡ wrote }
    ensures sink { O.state sink.new ≡ O.state sink.old }
{
    match wrote {
        WriteAll::Whole => {}
        WriteAll::Failed => sink.close(),
    }
    wrote
}

/// Writes an item, unless a write has failed before.
#[tactic(auto, using(crate::proofs::Saying::says_same))]
fn say<O: Sink>(sink: &mut O, before: WriteAll, item: Item) -> WriteAll
    requires { IsShort item }
    ensures { SaysOn before result (item_bytes item) (O.state sink.old) (O.state sink.new) }
{
    match before {
        WriteAll::Whole => {
            let wrote = write_item(sink, &item);
            close_failed(sink, wrote)
        }
        WriteAll::Failed => WriteAll::Failed,
    }
}

/// Writes what is said where nothing comes any more.
fn write_last<O: Sink>(sink: &mut O, last: LastCollect) -> WriteAll
    ensures { SaysOn WriteAll.Whole result (handed_bytes (Spec.last_reply last)) (O.state sink.old) (O.state sink.new) }
{
    match last {
        LastCollect::Done => WriteAll::Whole,
        LastCollect::Close => write_close(sink),
        LastCollect::Error => write_error(sink),
    }
}

/// How a writing side came out that wrote all.
fn whole_end(last: LastCollect) -> WriteEnd
    ensures { Spec.IsWhole last result }
{
    match last {
        LastCollect::Done => WriteEnd::Done,
        LastCollect::Close => WriteEnd::Closed,
        LastCollect::Error => WriteEnd::Error,
    }
}

/// Ends the writing: what is said at last is written and the sink closed, unless a write has failed before.
#[tactic(auto, using(crate::proofs::Saying::says_same))]
fn end_with<O: Sink>(sink: &mut O, before: WriteAll, last: LastCollect) -> WriteEnd
    ensures last { Spec.last_of result ≡ last }
    ensures says { SaysOn before (Spec.course_of result) (handed_bytes (Spec.last_reply last)) (O.state sink.old) (O.state sink.new) }
{
    match before {
        WriteAll::Failed => WriteEnd::WriteFault(last),
        WriteAll::Whole => {
            let wrote = write_last(sink, last);
            sink.close();
            match wrote {
                WriteAll::Whole => whole_end(last),
                WriteAll::Failed => WriteEnd::WriteFault(last),
            }
        }
    }
}

/// The writing side of a connection: collects by the pass to the end, writes each item, and closes the sink. At a failed write it
/// closes the sink at once and goes on collecting without writing, so that nothing waits for room. Each collect and each write may wait. Takes no
/// memory.
pub fn write_side<O: Sink, R: Wait>(
    rt: &R,
    sink: &mut O,
    pool: &LanePool,
    pass: &mut WriterPass,
) -> WriteEnd
    requires { Writes pool.now.cell pass.old }
    ensures { Spec.WritesSide pool.now.cell result pass.old pass.new (O.state sink.old) (O.state sink.new) }
{
    let mut wrote = WriteAll::Whole;
    for _ in rt.forever() {
        match collect(rt, pool, pass) {
            Collected::Item(item) => wrote = say(sink, wrote, item),
            Collected::Close => return end_with(sink, wrote, LastCollect::Close),
            Collected::Error => return end_with(sink, wrote, LastCollect::Error),
            Collected::Done => return end_with(sink, wrote, LastCollect::Done),
        }
    }
    unreachable!()
}
