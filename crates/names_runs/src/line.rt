//! The line of a run.
ghost use Rattle.std.specs.Prelude.{◌≡◌};
ghost use Rattle.names_runs.specs.Lines.{line_of, WritesLine};

use crate::run::NamesRun;
use orb_base::Sink;
use std::alloc::Global;
use std::fmt;
use text_streams::{WriteAll, write_all};

/// The numbers of a run: the keys that the map holds at the end, the calls of the map, and the connections.
#[derive(Clone, Copy)]
struct Numbers {
    keys: u32,
    calls: usize,
    conns: usize,
}

impl fmt::Display for Numbers {
    ghost use Rattle.std.specs.Prelude.{Some};
    ghost use Rattle.names_runs.specs.Lines.{names_line};

    ghost output = { λ n. Some (names_line n.keys n.calls n.conns) };

    fn fmt<W: fmt::Write>(&self, f: &mut fmt::Formatter<W>) -> fmt::Result {
        writeln!(
            f,
            "names {} calls {} connections {}",
            self.keys, self.calls, self.conns
        )
    }
}

/// What became of a line.
#[derive(Clone, Copy, Debug, PartialEq, Eq)]
pub enum WroteLine {
    /// All of it was written.
    Whole,
    /// A prefix of it was written before the sink failed.
    Failed,
    /// Memory ran out for it, and nothing was written.
    NoMemory,
}

/// Writes the line of a run: `names <keys at the end> calls <calls of the map> connections <n>`.
pub fn write_line<I, T, O: Sink>(alloc: Global, out: &mut O, run: &NamesRun<I, T>) -> WroteLine
    ensures { WritesLine result (line_of run.now) (O.state out.old) (O.state out.new) }
{
    let numbers = Numbers {
        keys: run.keys,
        calls: run.history.len(),
        conns: run.conns.len(),
    };
    match format!(in alloc; "{numbers}") {
        Ok(line) => match write_all(out, line.as_bytes()) {
            WriteAll::Whole => WroteLine::Whole,
            WriteAll::Failed => WroteLine::Failed,
        },
        Err(_) => WroteLine::NoMemory,
    }
}
