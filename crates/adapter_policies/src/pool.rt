//! The pool.
ghost use Rattle.std.specs.Prelude.{◌≡◌, IfOk, codes, map};
ghost use Rattle.toml.specs.Data.{get_member};
ghost use Rattle.toml.specs.View.{table_view};
ghost use Rattle.config_tables.specs.Fault.{Judged};
ghost use Rattle.config_tables.specs.Judging.{table_fault, rule_fault, key_fault, list_fault};
ghost use Rattle.config_tables.specs.Held.{number_at, truth_at};
ghost use Rattle.config_tables.specs.Path.{key_path};
ghost use Rattle.config_tables.specs.Rules.{key_of, one, number};
ghost use Rattle.config_tables.specs.Standing.{is_free};
ghost use Rattle.config_tables.specs.Values.{tables_at};
ghost use Rattle.adapter_policies.specs.Schema.{priority, threads, if_buffering, if_unlaned, lane_rules, pool_rules};
ghost use Rattle.adapter_policies.specs.Tables.{lane_at, pool_of};

use crate::lane::LaneTable;
use crate::priorities::priority_where;
use config_tables::{
    SetupError, free_entries, free_truth, known_keys, member, number_where, stands,
};
use orb_base::Priority;
use std::alloc::Global;
use std::marker::Model;
use toml::Table;

/// The pool, as its table says it. With lanes, its own threads and priority are 0; without buffering, its limits are.
#[derive(Drop)]
pub struct PoolTable {
    pub borrowing: bool,
    pub buffering: bool,
    pub max_requests: u32,
    pub max_bytes: u32,
    pub laned: bool,
    pub lanes: Vec<LaneTable>,
    pub statics: u8,
    pub dynamics: u8,
    pub priority: Priority,
}

impl Model for PoolTable {
    ghost use Rattle.adapter_policies.specs.Tables.{PoolSaid};

    ghost Value = { PoolSaid };

    ghost view = { λ p. record {
      borrowing = p.borrowing;
      buffering = p.buffering;
      max_requests = p.max_requests;
      max_bytes = p.max_bytes;
      laned = p.laned;
      lanes = p.lanes.items;
      statics = p.statics;
      dynamics = p.dynamics;
      priority = p.priority;
    } };
}

/// The pool that a table says.
#[tactic(auto, using(config_tables::proofs::Judging::refuses_first, config_tables::proofs::Judging::refuses_later))]
pub fn read_pool(alloc: Global, path: &str, table: &Table) -> Result<PoolTable, SetupError>
    ensures judged { Judged result (table_fault key_fault pool_rules path.now (table_view table.now)) }
    ensures value { IfOk result (λ pool. pool ≡ pool_of (table_view table.now)) }
{
    known_keys(
        alloc,
        path,
        table,
        &[
            "borrowing",
            "buffering",
            "max_buffered_requests",
            "max_request_buffer_size",
            "lanes",
            "static",
            "dynamic",
            "default_priority",
        ],
    )?;
    let borrowing = free_truth(alloc, path, table, "borrowing")?;
    let buffering = free_truth(alloc, path, table, "buffering")?;
    let max_requests = read_limit(alloc, path, table, "max_buffered_requests", 4096)?;
    let max_bytes = read_limit(alloc, path, table, "max_request_buffer_size", 16_777_216)?;
    let lanes = read_lanes(alloc, path, table)?;
    let statics = read_threads(alloc, path, table, "static")?;
    let dynamics = read_threads(alloc, path, table, "dynamic")?;
    let priority = read_default(alloc, path, table)?;
    Ok(PoolTable {
        borrowing,
        buffering,
        max_requests,
        max_bytes,
        laned: stands(table, "lanes"),
        lanes,
        statics,
        dynamics,
        priority,
    })
}

/// The lanes of a pool.
fn read_lanes(alloc: Global, path: &str, table: &Table) -> Result<Vec<LaneTable>, SetupError>
    ensures judged { Judged result (list_fault (table_fault rule_fault lane_rules) 1 16 (key_path path.now (codes "lanes")) is_free
        (get_member (codes "lanes") (table_view table.now))) }
    ensures value { IfOk result (λ lanes. lanes.items ≡ map lane_at (tables_at (get_member (codes "lanes") (table_view table.now)))) }
{
    free_entries(alloc, path, table, "lanes", (1, 16))
}

/// A limit of the buffer.
fn read_limit(
    alloc: Global,
    path: &str,
    table: &Table,
    key: &str,
    high: u32,
) -> Result<u32, SetupError>
    ensures judged { Judged result (key_fault (key_of key.now if_buffering (one (number 1 high))) path.now (table_view table.now)) }
    ensures value { IfOk result (λ n. n ≡ number_at key.now (table_view table.now)) }
{
    number_where(alloc, path, table, key, (1, high), is_buffering(table))
}

/// Whether a pool buffers requests. Another value than a truth value counts as false here.
fn is_buffering(table: &Table) -> bool
    ensures { result ≡ truth_at (codes "buffering") (table_view table.now) }
{
    match member(table, "buffering") {
        Some(value) => value.as_bool().unwrap_or(false),
        None => false,
    }
}

/// A number of threads of a pool without lanes.
fn read_threads(alloc: Global, path: &str, table: &Table, key: &str) -> Result<u8, SetupError>
    ensures judged { Judged result (key_fault (key_of key.now if_unlaned (one threads)) path.now (table_view table.now)) }
    ensures value { IfOk result (λ n. n ≡ number_at key.now (table_view table.now)) }
{
    let unlaned = !stands(table, "lanes");
    let threads = number_where(alloc, path, table, key, (0, 64), unlaned)?;
    Ok(threads as u8)
}

/// The priority of a pool without lanes.
fn read_default(alloc: Global, path: &str, table: &Table) -> Result<Priority, SetupError>
    ensures judged { Judged result (key_fault (key_of (codes "default_priority") if_unlaned (one priority)) path.now (table_view table.now)) }
    ensures value { IfOk result (λ p. p ≡ number_at (codes "default_priority") (table_view table.now)) }
{
    let unlaned = !stands(table, "lanes");
    priority_where(alloc, path, table, "default_priority", unlaned)
}
