//! All relations of a configuration, in the order of their causes.
ghost use Rattle.std.specs.Prelude.{◌≡◌, IfOk};
ghost use Rattle.config_tables.specs.Fault.{Judged};
ghost use Rattle.adapter_policies.specs.Configuration.{parts_fault, links_fault, levels_fault, relations_fault};
ghost use Rattle.adapter_policies.specs.MapRelations.{priority_map};

use crate::band_relations::{judge_ends, judge_lanes, judge_overlaps};
use crate::document::Document;
use crate::map_relations::judge_map;
use crate::name_relations::{judge_adapters_named, judge_duplicates, judge_own_priorities};
use crate::pool_relations::{
    judge_borrowing, judge_lane_order, judge_slots, judge_thread_count, judge_threads,
};
use crate::priority_relations::{judge_in_lanes, judge_natives};
use crate::transform_relations::judge_transforms;
use config_tables::SetupError;
use priority_maps::Map;
use std::alloc::Global;

/// Judges what has to hold between the tables of a document, and gives its map.
#[tactic(auto, unfolding(crate::specs::Configuration::relations_fault), using(config_tables::proofs::Judging::refuses_first, config_tables::proofs::Judging::refuses_later))]
pub fn judge_relations(alloc: Global, document: &Document) -> Result<Map, SetupError>
    ensures judged { Judged result (relations_fault document.now) }
    ensures value { IfOk result (λ m. m ≡ priority_map document.now.mapping) }
{
    let map = judge_parts(alloc, document)?;
    judge_links(alloc, &map, document)?;
    Ok(map)
}

/// Judges the pool, the server and the map, each by itself, and gives the map.
#[tactic(auto, unfolding(crate::specs::Configuration::parts_fault), using(config_tables::proofs::Judging::refuses_first, config_tables::proofs::Judging::refuses_later))]
fn judge_parts(alloc: Global, document: &Document) -> Result<Map, SetupError>
    ensures judged { Judged result (parts_fault document.now) }
    ensures value { IfOk result (λ m. m ≡ priority_map document.now.mapping) }
{
    judge_lane_order(alloc, &document.pool)?;
    judge_threads(alloc, &document.pool)?;
    judge_thread_count(alloc, &document.pool)?;
    judge_slots(alloc, document.server)?;
    judge_borrowing(alloc, &document.pool)?;
    judge_map(alloc, &document.mapping)
}

/// Judges what holds between adapters and objects, and then between priorities.
#[tactic(auto, unfolding(crate::specs::Configuration::links_fault), using(config_tables::proofs::Judging::refuses_first, config_tables::proofs::Judging::refuses_later))]
fn judge_links(alloc: Global, map: &Map, document: &Document) -> Result<(), SetupError>
    requires { map.now ≡ priority_map document.now.mapping }
    ensures { Judged result (links_fault document.now) }
{
    let adapters = document.adapters.as_slice();
    let objects = document.objects.as_slice();
    judge_ends(alloc, adapters)?;
    judge_overlaps(alloc, adapters)?;
    judge_duplicates(alloc, adapters, objects)?;
    judge_adapters_named(alloc, adapters, objects)?;
    judge_own_priorities(alloc, adapters, objects)?;
    judge_levels(alloc, map, document)
}

/// Judges what holds between priorities, lanes, the map and transforms.
#[tactic(auto, unfolding(crate::specs::Configuration::levels_fault), using(config_tables::proofs::Judging::refuses_first, config_tables::proofs::Judging::refuses_later))]
fn judge_levels(alloc: Global, map: &Map, document: &Document) -> Result<(), SetupError>
    requires { map.now ≡ priority_map document.now.mapping }
    ensures { Judged result (levels_fault document.now) }
{
    let pool = &document.pool;
    let adapters = document.adapters.as_slice();
    let objects = document.objects.as_slice();
    judge_in_lanes(alloc, pool, adapters, objects)?;
    judge_natives(alloc, map, pool, adapters, objects)?;
    judge_lanes(alloc, pool, adapters)?;
    judge_transforms(alloc, adapters)
}
