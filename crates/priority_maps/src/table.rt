//! Table maps.
//!
//! The rows rise, so the row of a CORBA priority is found by halving. For the way back a tree holds the low end of the
//! first row of each native priority.
ghost use Rattle.std.specs.Prelude.{◌≡◌, ◌≤◌, ◌↔◌, true, length, IsTrue, IsSome, IfSome, IfOk, OnOk, ℤ};
ghost use Rattle.std.specs.List.{AllAdjacentBelow};
ghost use Rattle.std.specs.Option.{option_and_then, option_copied, option_or};
ghost use Rattle.std.specs.Ordering.{int_eq, int_cmp};
ghost use Rattle.std.specs.BTreeMap.{get};
ghost use Rattle.priority_maps.specs.Rows.{Rises, HasBands, rows_native};
ghost use Rattle.priority_maps.specs.Search.{IsFirstAbove, native_in, first_low, low_of, HasLows};
ghost use Rattle.priority_maps.specs.Least.{FindsLeast};

use crate::row::MapRow;
use orb_base::{List, NoMemory, Priority};
use std::alloc::Global;
use std::collections::BTreeMap;
use std::marker::Model;

/// A map by rows of rising bands.
#[derive(Drop)]
pub struct Table {
    rows: List<MapRow>,
    /// The low end of the first row of each native priority.
    lows: BTreeMap<i32, Priority>,
}

impl Model for Table {
    ghost use Rattle.std.specs.Prelude.{List};
    ghost use Rattle.priority_maps.specs.declared.row.MapRow.{MapRow};
    ghost use Rattle.priority_maps.specs.Rows.{Rises, HasBands};
    ghost use Rattle.priority_maps.specs.Search.{HasLows};

    ghost Value = { List MapRow };

    ghost view = { λ t. t.rows.items };

    ghost invariant = { λ t. Rises t.rows.items × HasBands t.rows.items × HasLows t.rows.items t.lows };
}

impl Table {
    /// The map of these rows. None exactly where a row's low end isn't above the high end of the row before it.
    pub fn new(alloc: Global, rows: List<MapRow>) -> Result<Option<Table>, NoMemory>
        ensures none { IfOk result (λ found. IsSome found ↔ Rises rows.items) }
        ensures value { IfOk result (λ found. IfSome found (λ t. t ≡ rows.items)) }
    {
        if !have_ends(rows.as_slice()) || !rises(rows.as_slice()) {
            return Ok(None);
        }
        let lows = lows_of(alloc, rows.as_slice())?;
        Ok(Some(Table { rows, lows }))
    }

    /// The native priority of a CORBA one. The work is a logarithm of the rows; no memory.
    pub fn to_native(&self, p: Priority) -> Option<i32>
        ensures { result ≡ rows_native self.now p }
    {
        match self.row_above(p) {
            Some(row) => native_in(row, p),
            None => None,
        }
    }

    /// The only row that may hold a priority.
    #[tactic(auto, using(crate::proofs::Halving::at_first))]
    fn row_above(&self, p: Priority) -> Option<&MapRow>
        ensures { rows_native self.now p ≡ option_and_then (native_in p) (option_copied result) }
    {
        self.rows.get(self.first_above(p))
    }

    /// The first row whose high end isn't below a priority.
    fn first_above(&self, p: Priority) -> usize
        ensures first { IsFirstAbove self.now p result }
        ensures rises { Rises self.now }
        ensures bands { HasBands self.now }
    {
        let _ = &self.rows;
        self.rows
            .as_slice()
            .partition_point(|row| row.band.high() < p)
    }

    /// The least CORBA priority of a native one. The work is a logarithm of the rows; no memory.
    #[tactic(auto, using(crate::proofs::Lows::least_low))]
    pub fn to_corba(&self, n: i32) -> Option<Priority>
        ensures { FindsLeast (rows_native self.now) n result }
    {
        self.first_low(n)
    }

    /// The low end of the first row with a native priority.
    fn first_low(&self, n: i32) -> Option<Priority>
        ensures low { result ≡ first_low n self.now }
        ensures rises { Rises self.now }
        ensures bands { HasBands self.now }
    {
        let _ = &self.rows;
        self.lows.get(&n).copied()
    }
}

/// The native priority of a row, if it holds the CORBA one.
fn native_in(row: &MapRow, p: Priority) -> Option<i32>
    ensures { result ≡ native_in p row.now }
{
    if row.band.holds(p) {
        Some(row.native)
    } else {
        None
    }
}

/// Whether no row's ends are reversed, as is so of every band.
fn have_ends(rows: &[MapRow]) -> bool
    ensures always { result ≡ true }
    ensures bands { HasBands rows.now }
{
    for row in rows {
        if row.band.high() < row.band.low() {
            return false;
        }
    }
    true
}

/// Whether each row's low end is above the high end of the row before it.
fn rises(rows: &[MapRow]) -> bool
    ensures { IsTrue result ↔ Rises rows.now }
{
    rows.is_sorted_by(|row, next| row.band.high() < next.band.low())
}

/// The low end of the first row of each native priority.
fn lows_of(alloc: Global, rows: &[MapRow]) -> Result<BTreeMap<i32, Priority>, NoMemory>
    ensures { IfOk result (HasLows rows.now) }
{
    let mut lows = BTreeMap::new(alloc);
    for row in rows {
        keep_low(&mut lows, row)?;
    }
    Ok(lows)
}

/// Keeps a row's low end, unless an earlier row had its native priority.
fn keep_low(lows: &mut BTreeMap<i32, Priority>, row: &MapRow) -> Result<(), NoMemory>
    ensures { OnOk result ((n : ℤ) → get int_cmp lows.new n ≡ option_or (get int_cmp lows.old n) (low_of n row.now)) }
{
    if lows.contains_key(&row.native) {
        return Ok(());
    }
    match lows.insert(row.native, row.band.low()) {
        Ok(_) => Ok(()),
        Err(_) => Err(NoMemory),
    }
}
