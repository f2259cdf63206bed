//! The table of a run's lanes.
ghost use Rattle.std.specs.Prelude.{◌≡◌, ◌≤◌, ◌++◌, ◌<◌, ◌^◌, count_by, length, max, take, IfOk, OnOk, string_bytes};
ghost use Rattle.orb_base.specs.Pool.{HasLanes};
ghost use Rattle.trace_reading.specs.Traces.{IsTrace};
ghost use Rattle.trace_picture.specs.Grounds.{each};
ghost use Rattle.trace_picture.specs.Tables as Text;

use crate::drawing::shapes_of;
use crate::layout::Layout;
use crate::lines::first_lines;
use crate::shape::{Shape, WaitEnd};
use orb_base::{NoMemory, PoolSpec};
use std::alloc::Global;
use std::fmt;
use std::fmt::Write;
use trace_lines::{Action, OfferReply, TraceLine};
use trace_runs::Run;

/// What is counted of a lane.
#[derive(Clone, Copy)]
pub enum Counted {
    /// The requests of the lane that its own threads carried out.
    Own,
    /// The requests of other lanes that its threads carried out.
    LentOut,
    /// The requests of the lane that threads of other lanes carried out.
    LentIn,
    /// The requests of the lane that waited.
    Kept,
    /// The requests of the lane that were refused.
    Full,
    /// The requests of the lane that were withdrawn.
    Removed,
}

/// Whether a line offers a request of the lane, which was heard.
fn line_offers(lane: u8, line: &TraceLine) -> bool
    ensures { result ≡ Text.line_offers lane line.now }
{
    match &line.action {
        Action::Offer { request, reply } => {
            request.lane == lane && !matches!(reply, OfferReply::Closing)
        }
        _ => false,
    }
}

/// How many requests of the lane were offered and heard.
fn count_offers(lane: u8, lines: &[TraceLine]) -> usize
    ensures { result ≡ count_by (Text.line_offers lane) lines.now }
{
    lines.iter().filter(|line| line_offers(lane, line)).count()
}

/// Whether a thread of this lane that carries out a request of that one is counted so.
fn counts_bar(what: Counted, lane: u8, home: u8, of: u8) -> bool
    ensures { result ≡ Text.counts_bar what lane home of }
{
    match what {
        Counted::Own => home == lane && of == lane,
        Counted::LentOut => home == lane && !(of == lane),
        Counted::LentIn => !(home == lane) && of == lane,
        _ => false,
    }
}

/// Whether a request of the lane that waits is counted so.
fn counts_wait(what: Counted, how: WaitEnd) -> bool
    ensures { result ≡ Text.counts_wait what how }
{
    match what {
        Counted::Kept => true,
        Counted::Removed => matches!(how, WaitEnd::Removed),
        _ => false,
    }
}

/// Whether a request of the lane that is refused is counted so.
fn counts_full(what: Counted) -> bool
    ensures { result ≡ Text.counts_full what }
{
    matches!(what, Counted::Full)
}

/// Whether a shape is counted so for a lane.
fn counts(layout: &Layout, lane: u8, what: Counted, shape: &Shape) -> bool
    ensures { result ≡ Text.counts layout.now lane what shape.now }
{
    match shape {
        Shape::Bar {
            thread,
            lane: of,
            ..
        } => counts_bar(what, lane, layout.home_of(*thread), *of),
        Shape::Wait { lane: of, how, .. } => *of == lane && counts_wait(what, *how),
        Shape::Full { lane: of, .. } => *of == lane && counts_full(what),
        _ => false,
    }
}

/// How many shapes are counted so for a lane.
fn count(layout: &Layout, lane: u8, what: Counted, shapes: &[Shape]) -> usize
    ensures { result ≡ count_by (Text.counts layout.now lane what) shapes.now }
{
    shapes
        .iter()
        .filter(|s| counts(layout, lane, what, s))
        .count()
}

/// How many entries a request waited that was taken then.
fn taken_after(start: u32, end: u32, how: WaitEnd) -> u32
    ensures { result ≡ Text.taken_after start end how }
{
    match how {
        WaitEnd::Taken => end.saturating_sub(start),
        WaitEnd::Removed | WaitEnd::Open => 0,
    }
}

/// How many entries the request of a shape waited, where it is one of the lane that was taken then.
fn waited_in(lane: u8, shape: &Shape) -> u32
    ensures { result ≡ Text.waited_in lane shape.now }
{
    match shape {
        Shape::Wait {
            lane: of,
            start,
            end,
            how,
            ..
        } => {
            if *of == lane {
                taken_after(*start, *end, *how)
            } else {
                0
            }
        }
        _ => 0,
    }
}

/// The longest wait of a request of the lane that was taken then.
fn longest(lane: u8, shapes: &[Shape]) -> u32
    ensures { result ≡ Text.longest lane shapes.now }
{
    let mut most = 0;
    for shape in shapes {
        most = waited_in(lane, shape).max(most);
    }
    most
}

/// What is said of a lane, and of what.
#[derive(Clone, Copy)]
struct Row<'a> {
    layout: &'a Layout,
    lines: &'a [TraceLine],
    shapes: &'a [Shape],
    lane: u8,
}

/// Its name, and how many requests it was offered.
#[derive(Clone, Copy)]
struct Named<'a> {
    row: Row<'a>,
}

impl fmt::Display for Named<'_> {
    ghost use Rattle.std.specs.Prelude.{Some};

    ghost output = { λ t. Some (Text.name_text t.row.layout.now t.row.lines.now t.row.lane) };

    fn fmt<W: fmt::Write>(&self, f: &mut fmt::Formatter<W>) -> fmt::Result {
        let lane = self.row.lane;
        let priority = self.row.layout.priority(lane);
        let requests = count_offers(lane, self.row.lines);
        write!(f, "lane {lane} priority {priority} requests {requests}")
    }
}

/// What its threads carried out, and its requests that others did.
#[derive(Clone, Copy)]
struct Ran<'a> {
    row: Row<'a>,
}

impl fmt::Display for Ran<'_> {
    ghost use Rattle.std.specs.Prelude.{Some};

    ghost output = { λ t. Some (Text.ran_text t.row.layout.now t.row.shapes.now t.row.lane) };

    fn fmt<W: fmt::Write>(&self, f: &mut fmt::Formatter<W>) -> fmt::Result {
        let row = self.row;
        let own = count(row.layout, row.lane, Counted::Own, row.shapes);
        let lent_out = count(row.layout, row.lane, Counted::LentOut, row.shapes);
        let lent_in = count(row.layout, row.lane, Counted::LentIn, row.shapes);
        write!(f, "own {own} lent_out {lent_out} lent_in {lent_in}")
    }
}

/// What became of the others.
#[derive(Clone, Copy)]
struct Others<'a> {
    row: Row<'a>,
}

impl fmt::Display for Others<'_> {
    ghost use Rattle.std.specs.Prelude.{Some};

    ghost output = { λ t. Some (Text.others_text t.row.layout.now t.row.shapes.now t.row.lane) };

    fn fmt<W: fmt::Write>(&self, f: &mut fmt::Formatter<W>) -> fmt::Result {
        let row = self.row;
        let kept = count(row.layout, row.lane, Counted::Kept, row.shapes);
        let full = count(row.layout, row.lane, Counted::Full, row.shapes);
        let removed = count(row.layout, row.lane, Counted::Removed, row.shapes);
        let longest = longest(row.lane, row.shapes);
        write!(
            f,
            "kept {kept} full {full} removed {removed} longest {longest}"
        )
    }
}

/// Adds the line of a lane.
#[tactic(auto, unfolding(crate::specs::Tables::lane_line))]
fn add_lane(text: &mut String, row: Row<'_>) -> Result<(), NoMemory>
    ensures { OnOk result (string_bytes text.new ≡ string_bytes text.old
        ++ Text.lane_line row.entry.layout.now row.entry.lines.now row.entry.shapes.now row.entry.lane) }
{
    let named = Named { row };
    let ran = Ran { row };
    let others = Others { row };
    writeln!(text, "{named} {ran} {others}")?;
    Ok(())
}

/// Adds the line of each of so many lanes.
fn add_lanes(
    text: &mut String,
    layout: &Layout,
    lines: &[TraceLine],
    shapes: &[Shape],
    lanes: u8,
) -> Result<(), NoMemory>
    ensures { OnOk result (string_bytes text.new ≡ string_bytes text.old
        ++ each (Text.lane_line layout.now lines.now shapes.now) lanes) }
{
    for lane in 0..lanes {
        let row = Row {
            layout,
            lines,
            shapes,
            lane,
        };
        add_lane(text, row)?;
    }
    Ok(())
}

/// Adds the line of each lane.
fn add_all_lanes(
    text: &mut String,
    layout: &Layout,
    lines: &[TraceLine],
    shapes: &[Shape],
) -> Result<(), NoMemory>
    ensures { OnOk result (string_bytes text.new ≡ string_bytes text.old
        ++ Text.lanes_text layout.now lines.now shapes.now) }
{
    add_lanes(text, layout, lines, shapes, layout.lanes())
}

/// The lines of all lanes.
#[tactic(auto, using(crate::proofs::Wholes::from_nothing))]
fn lanes_text(
    alloc: Global,
    layout: &Layout,
    lines: &[TraceLine],
    shapes: &[Shape],
) -> Result<String, NoMemory>
    ensures { IfOk result (λ text. string_bytes text ≡ Text.lanes_text layout.now lines.now shapes.now) }
{
    let mut text = String::new(alloc);
    add_all_lanes(&mut text, layout, lines, shapes)?;
    Ok(text)
}

/// The table of these lines.
fn tell_lines(
    alloc: Global,
    pool: &PoolSpec,
    lines: &[TraceLine],
    legal: usize,
) -> Result<String, NoMemory>
    requires lanes { HasLanes pool.now.lanes }
    requires few { length lines.now < 2 ^ 32 }
    ensures { IfOk result (λ text. string_bytes text ≡ Text.table_of pool.now lines.now legal) }
{
    let counted = first_lines(lines, legal);
    let shapes = shapes_of(alloc, first_lines(counted, 0), counted)?;
    let layout = Layout::new(alloc, pool, 0, 0)?;
    lanes_text(alloc, &layout, counted, shapes.as_slice())
}

/// The table of a run of which so many entries come before the first wrong one, in numbers over those: a line for each lane. Some passes
/// over the entries for each lane; memory grows with the entries.
#[tactic(auto, using(crate::proofs::Wholes::has_lanes, crate::proofs::Wholes::few_lines))]
pub fn table(alloc: Global, run: &Run, legal: usize) -> Result<String, NoMemory>
    requires { IsTrace run.now }
    ensures { IfOk result (λ text. string_bytes text ≡ Text.table_text run.now legal) }
{
    tell_lines(alloc, &run.pool, run.lines.as_slice(), legal)
}
