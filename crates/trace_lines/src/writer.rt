//! Writing a trace.
ghost use Rattle.std.specs.Prelude.{◌≡◌, ◌++◌, OnOk, string_bytes};
ghost use Rattle.trace_lines.specs.Numbers.{number_in};
ghost use Rattle.trace_lines.specs.Texts.{count_text, line_text, lines_text, trace_text};
ghost use Rattle.trace_lines.specs.Writing.{Adds, WritesText};

use crate::head::head_text;
use crate::lines::line_of;
use crate::numbering::Numbering;
use crate::trace_line::TraceLine;
use lane_machine::Lanes;
use orb_base::{NoMemory, PoolSpec, Sink};
use std::alloc::Global;
use std::fmt::Write;
use text_streams::{WriteAll, write_all};
use turn_cell::Entry;

/// How many bytes of a trace are kept before they are written.
const PIECE: usize = 4096;

/// Adds a line to the piece that isn't written yet, and writes that once it is long enough.
#[tactic(auto, using(crate::proofs::Wrote::wrote_none, crate::proofs::Wrote::piece_kept, crate::proofs::Wrote::piece_out))]
fn add_line<O: Sink>(
    sink: &mut O,
    piece: &mut String,
    line: TraceLine,
) -> Result<WriteAll, NoMemory>
    ensures { Adds result (line_text line) (string_bytes piece.old) (string_bytes piece.new) (O.state sink.old) (O.state sink.new) }
{
    write!(piece, "{line}")?;
    if piece.len() < PIECE {
        return Ok(WriteAll::Whole);
    }
    let written = write_all(sink, piece.as_bytes());
    piece.clear();
    Ok(written)
}

/// Adds the line of each entry.
#[tactic(auto, using(crate::proofs::Wrote::line_added, crate::proofs::Wrote::lines_added))]
fn add_lines<O: Sink>(
    sink: &mut O,
    piece: &mut String,
    numbering: &Numbering,
    history: &[Entry<Lanes>],
) -> Result<WriteAll, NoMemory>
    ensures { Adds result (lines_text (number_in numbering.now) history.now) (string_bytes piece.old) (string_bytes piece.new)
        (O.state sink.old) (O.state sink.new) }
{
    for entry in history {
        match add_line(sink, piece, line_of(numbering, entry))? {
            WriteAll::Whole => {}
            WriteAll::Failed => return Ok(WriteAll::Failed),
        }
    }
    Ok(WriteAll::Whole)
}

/// Adds the line that says how many entries there are.
fn add_count(piece: &mut String, entries: usize) -> Result<(), NoMemory>
    ensures { OnOk result (string_bytes piece.new ≡ string_bytes piece.old ++ count_text entries) }
{
    writeln!(piece, "entries {entries}")?;
    Ok(())
}

/// Writes the trace of a run: the pool that it opened with, its slots and the connections of each, the line of each lane and of each
/// entry of its history, and how many entries there are. After a failed write, or out of memory, a prefix of that is written. The work
/// is that of hashing each request once and of the text; memory grows with the requests, and the text is never kept whole.
#[tactic(auto, using(crate::proofs::Wrote::wrote_none))]
pub fn write_trace<O: Sink>(
    alloc: Global,
    sink: &mut O,
    pool: &PoolSpec,
    slots: u8,
    per_slot: u8,
    history: &[Entry<Lanes>],
) -> Result<WriteAll, NoMemory>
    ensures { WritesText result (trace_text pool.now slots per_slot history.now) (O.state sink.old) (O.state sink.new) }
{
    let numbering = Numbering::new(alloc, history)?;
    let mut piece = head_text(alloc, pool, slots, per_slot)?;
    match add_lines(sink, &mut piece, &numbering, history)? {
        WriteAll::Whole => {}
        WriteAll::Failed => return Ok(WriteAll::Failed),
    }
    add_count(&mut piece, history.len())?;
    Ok(write_all(sink, piece.as_bytes()))
}
