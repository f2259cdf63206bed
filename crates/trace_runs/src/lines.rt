//! A run that was begun, and one more line.
ghost use Rattle.std.specs.Prelude.{◌≡◌, ◌↔◌, ◌++◌, ◌∷◌, [], IsTrue, IfOk, OnOk};
ghost use Rattle.trace_reading.specs.RowWords.{FitsLane, FitsLine, FitsRow};
ghost use Rattle.trace_runs.specs.Begun.{IsBegun, HasSpace, MayFollow};
ghost use Rattle.trace_runs.specs.Reading.{TakesRow, TakesLine};

use crate::run::Run;
use crate::step::Step;
use orb_base::{LaneSpec, List, NoMemory};
use trace_lines::{Action, TraceLine};
use trace_reading::{Row, read_line};

/// More entries than a trace counts.
const MAX_ENTRIES: usize = 4_294_967_295;

/// Puts a line after the last one.
fn push_line(lines: &mut List<TraceLine>, caller: u32, action: &Action) -> Result<(), NoMemory>
    ensures { OnOk result (lines.new.items ≡ lines.old.items ++ (record { caller = caller; action = action.now }) ∷ []) }
{
    let line = TraceLine {
        caller,
        action: *action,
    };
    match lines.push(line) {
        Ok(()) => Ok(()),
        Err(_) => Err(NoMemory),
    }
}

impl Run {
    /// Takes a lane, where the pool is well formed with it and no entry came before.
    #[tactic(auto, using(crate::proofs::Growing::lane_may, crate::proofs::Growing::lane_well))]
    fn take_lane(&mut self, lane: LaneSpec) -> Result<Step, NoMemory>
        requires begun { IsBegun self.old }
        requires fits { FitsLane lane }
        ensures { IfOk result (TakesRow self.old (Row.Lane lane) self.new) }
    {
        if !self.lines.is_empty() {
            return Ok(Step::Refused);
        }
        if self.pool.lanes.push(lane).is_err() {
            return Err(NoMemory);
        }
        if self.pool.well_formed() {
            Ok(Step::Goes)
        } else {
            Ok(Step::Refused)
        }
    }

    /// Whether the run has a lane, and may have one more entry.
    fn has_space(&self) -> bool
        ensures { IsTrue result ↔ HasSpace self.now }
    {
        self.pool.lanes.len() > 0 && self.lines.len() < MAX_ENTRIES
    }

    /// Whether an entry may follow: the run has what it names, a lane, and may have one more.
    #[tactic(auto, using(crate::proofs::Growing::line_may, crate::proofs::Growing::line_own, crate::proofs::Growing::few_lanes))]
    fn may_take(&self, line: &TraceLine) -> bool
        requires begun { IsBegun self.now }
        requires fits { FitsLine line.now }
        ensures { IsTrue result ↔ MayFollow self.now (Row.Entry line.now) }
    {
        self.has_space() && self.has_named(&line.action)
    }

    /// Takes an entry, where it may follow.
    fn take_entry(&mut self, line: &TraceLine) -> Result<Step, NoMemory>
        requires begun { IsBegun self.old }
        requires fits { FitsLine line.now }
        ensures { IfOk result (TakesRow self.old (Row.Entry line.now) self.new) }
    {
        if !self.may_take(line) {
            return Ok(Step::Refused);
        }
        push_line(&mut self.lines, line.caller, &line.action)?;
        Ok(Step::Goes)
    }

    /// Whether the run has so many entries, and a lane.
    #[tactic(auto, using(crate::proofs::Growing::count_may, crate::proofs::Growing::count_needs))]
    fn has_count(&self, entries: usize) -> bool
        requires begun { IsBegun self.now }
        ensures { IsTrue result ↔ MayFollow self.now (Row.Count entries) }
    {
        !self.pool.lanes.is_empty() && entries == self.lines.len()
    }

    /// Takes one more line.
    fn take_row(&mut self, row: &Row) -> Result<Step, NoMemory>
        requires begun { IsBegun self.old }
        requires fits { FitsRow row.now }
        ensures { IfOk result (TakesRow self.old row.now self.new) }
    {
        match row {
            Row::Lane(lane) => self.take_lane(*lane),
            Row::Entry(line) => self.take_entry(line),
            Row::Count(entries) => {
                if self.has_count(*entries) {
                    Ok(Step::Ends)
                } else {
                    Ok(Step::Refused)
                }
            }
            Row::Pool(_) => Ok(Step::Refused),
        }
    }

    /// Takes one more line, without its line feed. Work grows with the line, and for a lane with the lanes; memory with the lines.
    #[tactic(auto, using(crate::proofs::Growing::line_fits, crate::proofs::Growing::row_taken, crate::proofs::Growing::none_taken))]
    pub fn take_line(&mut self, line: &[u8]) -> Result<Step, NoMemory>
        requires begun { IsBegun self.old }
        ensures { IfOk result (TakesLine self.old line.now self.new) }
    {
        match read_line(line) {
            Some(row) => self.take_row(&row),
            None => Ok(Step::Refused),
        }
    }
}
