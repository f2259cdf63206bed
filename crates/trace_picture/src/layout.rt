//! Where things are drawn.
ghost use Rattle.std.specs.Prelude.{◌≡◌, ◌≤◌, ◌<◌, ◌+◌, ◌^◌, ◌++◌, IfOk, OnOk, length, map, replicate, slice_index};
ghost use Rattle.orb_base.specs.Pool.{HasLanes};
ghost use Rattle.orb_base.specs.declared.limits.TheConstants.{MAX_LANES, MAX_THREADS};
ghost use Rattle.trace_picture.specs.Plots as Spec;

use orb_base::{LaneSpec, List, NoMemory, PoolSpec};
use std::alloc::Global;
use std::marker::Model;

/// Where entries begin, from the left.
pub const LEFT: u64 = 190;

/// Where rows begin, from the top.
pub const TOP: u64 = 92;

/// How high the row of a thread is.
pub const ROW: u64 = 16;

/// How high the strip of a lane is.
pub const STRIP: u64 = 32;

/// How wide the space between two numbers at the axis is.
pub const SPACE: u64 = 40;

/// What is left free after the last entry.
pub const EDGE: u64 = 40;

/// How wide a picture is at least.
pub const MIN_WIDTH: u64 = 720;

/// What comes below the rows: the replies, the axis and the legend.
pub const FOOT: u64 = 190;

/// A picture: which entries it shows, and where.
#[derive(Drop)]
pub struct Layout {
    first: u32,
    count: u32,
    step: u8,
    homes: List<u8>,
    priorities: List<u16>,
}

impl Model for Layout {
    ghost use Rattle.std.specs.Prelude.{◌≤◌, length};
    ghost use Rattle.orb_base.specs.declared.limits.TheConstants.{MAX_LANES, MAX_THREADS};
    ghost use Rattle.trace_picture.specs.Plots.{Plot};

    ghost Value = { Plot };

    ghost view = { λ p. record {
      first = p.first;
      count = p.count;
      step = p.step;
      homes = p.homes.items;
      priorities = p.priorities.items;
    } };

    ghost invariant = { λ p. (length p.homes.items ≤ MAX_THREADS) × (length p.priorities.items ≤ MAX_LANES) };
}

/// How wide an entry is, by how many there are.
fn step_of(count: u32) -> u8
    ensures { result ≡ Spec.step_of count }
{
    if count < 31 {
        40
    } else if count < 61 {
        20
    } else if count < 151 {
        8
    } else if count < 301 {
        4
    } else {
        2
    }
}

/// Puts the number of a lane after the others, for each of its threads.
fn put_home(alloc: Global, homes: &mut List<u8>, lane: u8, threads: u16) -> Result<(), NoMemory>
    ensures { OnOk result (homes.new.items ≡ homes.old.items ++ replicate threads lane) }
{
    let more = vec![in alloc; lane; usize::from(threads)]?;
    homes.append(more.as_slice())
}

/// The lane of each thread, lane by lane.
#[tactic(auto, using(crate::proofs::Homes::few_homes, crate::proofs::Homes::home_more, crate::proofs::Homes::homes_all))]
fn homes_of(alloc: Global, lanes: &[LaneSpec]) -> Result<List<u8>, NoMemory>
    requires { HasLanes lanes.now }
    ensures homes { IfOk result (λ homes. homes.items ≡ Spec.homes_from 0 lanes.now) }
    ensures few { IfOk result (λ homes. length homes.items ≤ MAX_THREADS) }
{
    let mut homes = List::new(alloc);
    for (l, lane) in lanes.iter().enumerate() {
        put_home(
            alloc,
            &mut homes,
            l as u8,
            u16::from(lane.statics) + u16::from(lane.dynamics),
        )?;
    }
    Ok(homes)
}

/// The priority of each lane.
#[tactic(auto, using(crate::proofs::Homes::few_levels))]
fn priorities_of(alloc: Global, lanes: &[LaneSpec]) -> Result<List<u16>, NoMemory>
    requires { HasLanes lanes.now }
    ensures levels { IfOk result (λ priorities. priorities.items ≡ map (λ lane. lane.priority) lanes.now) }
    ensures few { IfOk result (λ priorities. length priorities.items ≤ MAX_LANES) }
{
    let levels = lanes
        .iter()
        .map(|lane| lane.priority.level())
        .collect(alloc)?;
    Ok(List::from_vec(levels))
}

/// The number at a place, 0 past the end.
pub fn number_at(numbers: &List<u8>, at: usize) -> u8
    ensures { result ≡ slice_index numbers.now.items at }
{
    match numbers.get(at) {
        Some(n) => *n,
        None => 0,
    }
}

/// The level at a place, 0 past the end.
fn level_at(levels: &List<u16>, at: usize) -> u16
    ensures { result ≡ slice_index levels.now.items at }
{
    match levels.get(at) {
        Some(n) => *n,
        None => 0,
    }
}

/// How many threads the lanes up to this one have.
fn count_up_to(homes: &[u8], lane: u8) -> usize
    ensures count { result ≡ Spec.homes_up_to homes.now lane }
    ensures within { result ≤ length homes.now }
{
    homes.iter().filter(|home| **home <= lane).count()
}

impl Layout {
    /// A picture of so many entries of a run with this pool, of which the first has this number. Memory grows with the threads.
    pub fn new(alloc: Global, pool: &PoolSpec, first: u32, count: u32) -> Result<Layout, NoMemory>
        requires { HasLanes pool.now.lanes }
        ensures { IfOk result (λ p. p ≡ Spec.plot_of pool.now first count) }
    {
        let lanes = pool.lanes.as_slice();
        Ok(Layout {
            first,
            count,
            step: step_of(count),
            homes: homes_of(alloc, lanes)?,
            priorities: priorities_of(alloc, lanes)?,
        })
    }

    /// The number of the first entry.
    pub fn first(&self) -> u32
        ensures { result ≡ self.now.first }
    {
        self.first
    }

    /// How many entries there are.
    pub fn count(&self) -> u32
        ensures { result ≡ self.now.count }
    {
        self.count
    }

    /// How many lanes there are.
    pub fn lanes(&self) -> u8
        ensures { result ≡ length self.now.priorities }
    {
        self.priorities.len() as u8
    }

    /// How many threads there are.
    pub fn threads(&self) -> u8
        ensures { result ≡ length self.now.homes }
    {
        self.homes.len() as u8
    }

    /// The priority of a lane.
    pub fn priority(&self, lane: u8) -> u16
        ensures { result ≡ slice_index self.now.priorities lane }
    {
        level_at(&self.priorities, usize::from(lane))
    }

    /// The lane of a thread.
    pub fn home_of(&self, thread: u8) -> u8
        ensures { result ≡ Spec.home_of self.now thread }
    {
        number_at(&self.homes, usize::from(thread))
    }

    /// The lane of each thread.
    pub fn homes(&self) -> &[u8]
        ensures { result.now ≡ self.now.homes }
    {
        self.homes.as_slice()
    }

    /// Where an entry is.
    pub fn x_of(&self, n: u32) -> u64
        ensures { result ≡ Spec.x_of self.now n }
    {
        LEFT + u64::from(n.saturating_sub(self.first)) * u64::from(self.step)
    }

    /// How many entries are between two numbers at the axis.
    fn spacing(&self) -> u64
        ensures value { result ≡ Spec.spacing self.now }
        ensures few { result ≤ SPACE }
    {
        let step = u64::from(self.step);
        if step == 0 { 0 } else { SPACE / step }
    }

    /// The number of the entry at a place of the axis.
    pub fn number_of(&self, i: u64) -> u64
        requires { i < 2 ^ 40 }
        ensures { result ≡ Spec.number_of self.now i }
    {
        u64::from(self.first) + self.spacing() * i
    }

    /// How many numbers there are at the axis, less one.
    pub fn ticks(&self) -> u64
        ensures value { result ≡ Spec.ticks self.now }
        ensures few { result + 1 < 2 ^ 40 }
    {
        u64::from(self.count) * u64::from(self.step) / SPACE
    }

    /// How wide the rows are.
    pub fn row_width(&self) -> u64
        ensures value { result ≡ Spec.row_width self.now }
        ensures few { result < 2 ^ 41 }
    {
        u64::from(self.count) * u64::from(self.step) + EDGE
    }

    /// Where the last row ends.
    pub fn bottom(&self) -> u64
        ensures value { result ≡ Spec.bottom self.now }
        ensures few { result < 2 ^ 20 }
    {
        TOP + (ROW * self.homes.len() as u64 + STRIP * self.priorities.len() as u64)
    }

    /// Where the row of a thread is.
    pub fn thread_y(&self, thread: u8) -> u64
        ensures value { result ≡ Spec.thread_y self.now thread }
        ensures few { result < 2 ^ 20 }
    {
        let above = ROW * (u64::from(thread) + 1) + STRIP * u64::from(self.home_of(thread));
        self.bottom().saturating_sub(above)
    }

    /// Where the strip of a lane is. One pass over the threads.
    pub fn strip_y(&self, lane: u8) -> u64
        ensures value { result ≡ Spec.strip_y self.now lane }
        ensures few { result < 2 ^ 20 }
    {
        let threads = count_up_to(self.homes.as_slice(), lane) as u64;
        let above = ROW * threads + STRIP * (u64::from(lane) + 1);
        self.bottom().saturating_sub(above)
    }

    /// How wide the picture is.
    pub fn width(&self) -> u64
        ensures { result ≡ Spec.width self.now }
    {
        MIN_WIDTH.max(LEFT + self.row_width())
    }

    /// How high the picture is.
    pub fn height(&self) -> u64
        ensures { result ≡ Spec.height self.now }
    {
        self.bottom() + FOOT
    }
}
