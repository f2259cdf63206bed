//! What holds of the map, and the map itself.
ghost use Rattle.std.specs.Prelude.{◌≡◌, true, false, IfOk, MatchOption, None, map};
ghost use Rattle.config_tables.specs.Fault.{Judged};
ghost use Rattle.priority_maps.specs.Maps.{linear, table};
ghost use Rattle.priority_maps.specs.Rows.{Rises};
ghost use Rattle.adapter_policies.specs.MapRelations.{map_fault, priority_map, is_lawful, described, ends_ordered, linear_of, rows_rise, row_made};

use crate::map::MapTable;
use crate::pool_relations::is_above;
use crate::row::RowTable;
use config_tables::{ConfigCause, SetupError, refuse_at};
use orb_base::{Band, List, NoMemory, Priority};
use priority_maps::{Map, MapRow};
use std::alloc::Global;

/// Judges that a linear map's ends are in order and a table map's rows rise, and makes the map.
pub fn judge_map(alloc: Global, mapping: &Option<MapTable>) -> Result<Map, SetupError>
    ensures judged { Judged result (map_fault mapping.now) }
    ensures value { IfOk result (λ m. m ≡ priority_map mapping.now) }
{
    match mapping {
        None => Ok(Map::identity()),
        Some(said) => match made(alloc, said) {
            Ok(Some(map)) => Ok(map),
            Ok(None) => Err(refuse_at(alloc, "map", ConfigCause::BadMap)),
            Err(_) => Err(SetupError::NoMemory),
        },
    }
}

/// The map that a table describes, where it is lawful.
fn made(alloc: Global, said: &MapTable) -> Result<Option<Map>, NoMemory>
    ensures { IfOk result (λ found. MatchOption found (is_lawful said.now ≡ false)
        (λ m. (is_lawful said.now ≡ true) × (m ≡ described said.now))) }
{
    if said.linear {
        return Ok(linear_made(said));
    }
    table_made(alloc, said.rows.as_slice())
}

/// The linear map from end to end, where its ends are in order.
fn linear_made(said: &MapTable) -> Option<Map>
    ensures { MatchOption result (ends_ordered said.now ≡ false)
        (λ m. (ends_ordered said.now ≡ true) × (m ≡ linear (linear_of said.now))) }
{
    let corba = Band::new(said.corba_low, said.corba_high)?;
    Map::linear(corba, said.native_low, said.native_high)
}

/// The table map of rows, where they rise.
fn table_made(alloc: Global, rows: &[RowTable]) -> Result<Option<Map>, NoMemory>
    ensures { IfOk result (λ found. MatchOption found (rows_rise None rows.now ≡ false)
        (λ m. (rows_rise None rows.now ≡ true) × (m ≡ table (map row_made rows.now)))) }
{
    match rising_rows(alloc, rows) {
        Ok(Some(rows)) => Ok(Some(table_of(alloc, rows)?)),
        Ok(None) => Ok(None),
        Err(e) => Err(e),
    }
}

/// The table map of rows that rise.
fn table_of(alloc: Global, rows: List<MapRow>) -> Result<Map, NoMemory>
    requires { Rises rows.items }
    ensures { IfOk result (λ m. m ≡ table rows.items) }
{
    Ok(Map::table(alloc, rows)?.unwrap())
}

/// The rows of a table map, where they rise.
#[tactic(auto, using(crate::proofs::Rising::rises_made))]
fn rising_rows(alloc: Global, rows: &[RowTable]) -> Result<Option<List<MapRow>>, NoMemory>
    ensures { IfOk result (λ found. MatchOption found (rows_rise None rows.now ≡ false)
        (λ made. (rows_rise None rows.now ≡ true) × (made.items ≡ map row_made rows.now) × Rises made.items)) }
{
    let mut made = List::new(alloc);
    let mut before: Option<Priority> = None;
    for row in rows {
        if !is_above(before, row.low) {
            return Ok(None);
        }
        let Some(band) = Band::new(row.low, row.high) else {
            return Ok(None);
        };
        let native = row.native;
        if made.push(MapRow { band, native }).is_err() {
            return Err(NoMemory);
        }
        before = Some(row.high);
    }
    Ok(Some(made))
}
