//! What holds of the bands of adapters, and of the rows of their transforms.
ghost use Rattle.std.specs.Prelude.{◌≡◌, [], not, position};
ghost use Rattle.config_tables.specs.Fault.{Judged};
ghost use Rattle.adapter_policies.specs.BandRelations.{band_empty_fault, overlap_fault, band_without_lane_fault, ends_fault, shares_fault, outside_fault, is_reversed, is_row_reversed, rows_share_one, share_one, holds_lane, without_lane};
ghost use Rattle.adapter_policies.specs.Found.{first_clash};

use crate::adapter::AdapterTable;
use crate::band::BandTable;
use crate::clashes::first_clash;
use crate::inbound::InboundTable;
use crate::pool::PoolTable;
use crate::refusals::{refuse_band, refuse_row};
use config_tables::{ConfigCause, SetupError};
use std::alloc::Global;

/// Judges that no low end of a band or of a row is above its high one.
#[tactic(auto, using(config_tables::proofs::Judging::refuses_first, config_tables::proofs::Judging::refuses_later))]
pub fn judge_ends(alloc: Global, adapters: &[AdapterTable]) -> Result<(), SetupError>
    ensures { Judged result (band_empty_fault adapters.now) }
{
    for (n, adapter) in adapters.iter().enumerate() {
        judge_adapter_ends(alloc, n, adapter)?;
    }
    Ok(())
}

/// Judges the ends of an adapter's bands, and then of the rows of its transform.
#[tactic(auto, unfolding(crate::specs::BandRelations::ends_fault), using(config_tables::proofs::Judging::refuses_first, config_tables::proofs::Judging::refuses_later))]
fn judge_adapter_ends(alloc: Global, n: usize, adapter: &AdapterTable) -> Result<(), SetupError>
    ensures { Judged result (ends_fault n adapter.now) }
{
    let band = first_reversed(adapter.bands.as_slice());
    refuse_band(alloc, n, ConfigCause::BandEmpty, band)?;
    let row = first_row_reversed(adapter.inbound.as_slice());
    refuse_row(alloc, n, ConfigCause::BandEmpty, row)
}

/// Judges that no two bands of an adapter share a priority, and no two rows of its transform do.
#[tactic(auto, using(config_tables::proofs::Judging::refuses_first, config_tables::proofs::Judging::refuses_later))]
pub fn judge_overlaps(alloc: Global, adapters: &[AdapterTable]) -> Result<(), SetupError>
    ensures { Judged result (overlap_fault adapters.now) }
{
    for (n, adapter) in adapters.iter().enumerate() {
        judge_adapter_overlaps(alloc, n, adapter)?;
    }
    Ok(())
}

/// Judges that no two of an adapter's bands share a priority, and then that no two rows of its transform do.
#[tactic(auto, unfolding(crate::specs::BandRelations::shares_fault), using(config_tables::proofs::Judging::refuses_first, config_tables::proofs::Judging::refuses_later))]
fn judge_adapter_overlaps(alloc: Global, n: usize, adapter: &AdapterTable) -> Result<(), SetupError>
    ensures { Judged result (shares_fault n adapter.now) }
{
    let band = first_overlap(adapter.bands.as_slice());
    refuse_band(alloc, n, ConfigCause::BandOverlap, band)?;
    let row = first_row_overlap(adapter.inbound.as_slice());
    refuse_row(alloc, n, ConfigCause::BandOverlap, row)
}

/// Judges that each band holds the priority of a lane, if there are lanes.
#[tactic(auto, using(config_tables::proofs::Judging::refuses_first, config_tables::proofs::Judging::refuses_later))]
pub fn judge_lanes(
    alloc: Global,
    pool: &PoolTable,
    adapters: &[AdapterTable],
) -> Result<(), SetupError>
    ensures { Judged result (band_without_lane_fault pool.now adapters.now) }
{
    for (n, adapter) in adapters.iter().enumerate() {
        judge_adapter_lanes(alloc, pool, n, adapter)?;
    }
    Ok(())
}

/// Judges that each of an adapter's bands holds the priority of a lane, if there are lanes.
#[tactic(auto, unfolding(crate::specs::BandRelations::outside_fault))]
fn judge_adapter_lanes(
    alloc: Global,
    pool: &PoolTable,
    n: usize,
    adapter: &AdapterTable,
) -> Result<(), SetupError>
    ensures { Judged result (outside_fault pool.now n adapter.now) }
{
    let found = first_without_lane(pool, adapter.bands.as_slice());
    refuse_band(alloc, n, ConfigCause::BandWithoutLane, found)
}

/// The number of the first band whose low end is above its high one.
fn first_reversed(bands: &[BandTable]) -> Option<usize>
    ensures { result ≡ position is_reversed bands.now }
{
    bands.iter().position(|band| band.high < band.low)
}

/// The number of the first row whose low end is above its high one.
fn first_row_reversed(rows: &[InboundTable]) -> Option<usize>
    ensures { result ≡ position is_row_reversed rows.now }
{
    rows.iter().position(|row| row.high < row.low)
}

/// The number of the first band that shares a priority with an earlier one.
fn first_overlap(bands: &[BandTable]) -> Option<usize>
    ensures { result ≡ first_clash share_one [] 0 bands.now }
{
    first_clash(bands)
}

/// The number of the first row that shares a priority with an earlier one.
fn first_row_overlap(rows: &[InboundTable]) -> Option<usize>
    ensures { result ≡ first_clash rows_share_one [] 0 rows.now }
{
    first_clash(rows)
}

/// The number of the first band that holds no lane's priority; none where there are no lanes.
fn first_without_lane(pool: &PoolTable, bands: &[BandTable]) -> Option<usize>
    ensures { result ≡ without_lane pool.now bands.now }
{
    if !pool.laned {
        return None;
    }
    first_outside(pool, bands)
}

/// The number of the first band that holds no lane's priority.
fn first_outside(pool: &PoolTable, bands: &[BandTable]) -> Option<usize>
    ensures { result ≡ position (λ b. not (holds_lane pool.now b)) bands.now }
{
    bands.iter().position(|band| !holds_lane(pool, *band))
}

/// Whether a band holds the priority of a lane.
fn holds_lane(pool: &PoolTable, band: BandTable) -> bool
    ensures { result ≡ holds_lane pool.now band }
{
    pool.lanes.iter().any(|lane| band.low <= lane.priority && lane.priority <= band.high)
}
