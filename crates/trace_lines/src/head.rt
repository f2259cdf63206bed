//! The text of what a run opened with.
ghost use Rattle.std.specs.Prelude.{◌≡◌, ◌++◌, IfOk, OnOk, string_bytes};
ghost use Rattle.std.specs.List.{flat_map};
ghost use Rattle.trace_lines.specs.Texts as Text;

use orb_base::{LaneSpec, NoMemory, PoolSpec};
use std::alloc::Global;
use std::fmt;
use std::fmt::Write;

/// 1 for true, 0 for false.
fn flag(b: bool) -> u8
    ensures { result ≡ Text.flag b }
{
    if b { 1 } else { 0 }
}

/// A limit of what may wait, which is 0 where nothing may.
fn limit(buffering: bool, most: u32) -> u32
    ensures { result ≡ Text.limit buffering most }
{
    if buffering { most } else { 0 }
}

/// What a pool allows.
#[derive(Clone, Copy)]
struct FlagsText<'a> {
    pool: &'a PoolSpec,
}

impl fmt::Display for FlagsText<'_> {
    ghost use Rattle.std.specs.Prelude.{Some};

    ghost output = { λ t. Some (Text.flags_text t.pool.now) };

    fn fmt<W: fmt::Write>(&self, f: &mut fmt::Formatter<W>) -> fmt::Result {
        let pool = self.pool;
        let laned = flag(pool.laned);
        let borrowing = flag(pool.borrowing);
        let buffering = flag(pool.buffering);
        write!(f, "{laned} {borrowing} {buffering}")
    }
}

/// The limits of what may wait, and of a run.
#[derive(Clone, Copy)]
struct LimitsText<'a> {
    pool: &'a PoolSpec,
}

impl fmt::Display for LimitsText<'_> {
    ghost use Rattle.std.specs.Prelude.{Some};

    ghost output = { λ t. Some (Text.limits_text t.pool.now) };

    fn fmt<W: fmt::Write>(&self, f: &mut fmt::Formatter<W>) -> fmt::Result {
        let pool = self.pool;
        let requests = limit(pool.buffering, pool.max_requests);
        let bytes = limit(pool.buffering, pool.max_bytes);
        write!(
            f,
            "{requests} {bytes} {} {}",
            pool.run_calls, pool.run_bytes
        )
    }
}

/// The line of a pool, with its slots and the connections of each.
#[derive(Clone, Copy)]
struct PoolText<'a> {
    pool: &'a PoolSpec,
    slots: u8,
    per_slot: u8,
}

impl fmt::Display for PoolText<'_> {
    ghost use Rattle.std.specs.Prelude.{Some};

    ghost output = { λ t. Some (Text.pool_text t.pool.now t.slots t.per_slot) };

    fn fmt<W: fmt::Write>(&self, f: &mut fmt::Formatter<W>) -> fmt::Result {
        let flags = FlagsText { pool: self.pool };
        let limits = LimitsText { pool: self.pool };
        writeln!(f, "pool {flags} {limits} {} {}", self.slots, self.per_slot)
    }
}

/// The line of a lane.
#[derive(Clone, Copy)]
struct LaneText {
    lane: LaneSpec,
}

impl fmt::Display for LaneText {
    ghost use Rattle.std.specs.Prelude.{Some};

    ghost output = { λ t. Some (Text.lane_text t.lane) };

    fn fmt<W: fmt::Write>(&self, f: &mut fmt::Formatter<W>) -> fmt::Result {
        let priority = self.lane.priority.level();
        writeln!(
            f,
            "lane {priority} {} {}",
            self.lane.statics, self.lane.dynamics
        )
    }
}

/// Adds the line of a pool.
fn add_pool(text: &mut String, pool: &PoolSpec, slots: u8, per_slot: u8) -> Result<(), NoMemory>
    ensures { OnOk result (string_bytes text.new ≡ string_bytes text.old ++ Text.pool_text pool.now slots per_slot) }
{
    let line = PoolText {
        pool,
        slots,
        per_slot,
    };
    write!(text, "{line}")?;
    Ok(())
}

/// Adds the line of a lane.
fn add_lane(text: &mut String, lane: LaneSpec) -> Result<(), NoMemory>
    ensures { OnOk result (string_bytes text.new ≡ string_bytes text.old ++ Text.lane_text lane) }
{
    let line = LaneText { lane };
    write!(text, "{line}")?;
    Ok(())
}

/// Adds the line of each lane.
fn add_lanes(text: &mut String, lanes: &[LaneSpec]) -> Result<(), NoMemory>
    ensures { OnOk result (string_bytes text.new ≡ string_bytes text.old ++ flat_map Text.lane_text lanes.now) }
{
    for lane in lanes {
        add_lane(text, *lane)?;
    }
    Ok(())
}

/// The lines of a pool and of its lanes.
pub fn head_text(
    alloc: Global,
    pool: &PoolSpec,
    slots: u8,
    per_slot: u8,
) -> Result<String, NoMemory>
    ensures { IfOk result (λ text. string_bytes text ≡ Text.head_text pool.now slots per_slot) }
{
    let mut text = String::new(alloc);
    add_pool(&mut text, pool, slots, per_slot)?;
    add_lanes(&mut text, pool.lanes.as_slice())?;
    Ok(text)
}
