//! Maps of either kind.
ghost use Rattle.std.specs.Prelude.{◌≡◌, ◌↔◌, ◌≤ℤ◌, IsSome, IfSome, IfOk};
ghost use Rattle.priority_maps.specs.Least.{FindsLeast};
ghost use Rattle.priority_maps.specs.Laws.{IsIdentity};
ghost use Rattle.priority_maps.specs.Linear.{identity};
ghost use Rattle.priority_maps.specs.Maps.{linear, table, to_native};
ghost use Rattle.priority_maps.specs.Rows.{Rises};

use crate::linear::Linear;
use crate::row::MapRow;
use crate::table::Table;
use orb_base::{Band, List, NoMemory, Priority};
use std::alloc::Global;
use std::marker::Model;

/// A map between CORBA priorities, 0 to 32767, and native ones, which are 32-bit numbers with a sign (Real-time CORBA
/// 1.2, Priority mappings).
#[derive(Drop)]
pub struct Map {
    shape: Shape,
}

/// The two kinds of map.
#[derive(Drop)]
pub enum Shape {
    Linear(Linear),
    Table(Table),
}

impl Model for Map {
    ghost use Rattle.priority_maps.specs.Maps.{PriorityMap};
    ghost use Rattle.priority_maps.specs.Shapes.{map_of};

    ghost Value = { PriorityMap };

    ghost view = { λ m. map_of m.shape };
}

impl Map {
    /// The linear map of a band onto the native priorities from one to another, both ends included. None exactly
    /// where the low native priority is above the high one. Constant work, no memory.
    pub fn linear(corba: Band, native_low: i32, native_high: i32) -> Option<Map>
        ensures none { IsSome result ↔ (native_low ≤ℤ native_high) }
        ensures value { IfSome result (λ m. m ≡ linear (record {
          low = corba.low;
          high = corba.high;
          native_low = native_low;
          native_high = native_high;
        })) }
    {
        let shape = Shape::Linear(Linear::new(corba, native_low, native_high)?);
        Some(Map { shape })
    }

    /// The map that gives each CORBA priority itself, as a configuration without a map has it. Takes no memory.
    #[tactic(auto, using(crate::proofs::Orders::is_identity))]
    pub fn identity() -> Map
        ensures identity { IsIdentity result }
        ensures value { result ≡ linear identity }
    {
        Map {
            shape: Shape::Linear(Linear::identity()),
        }
    }

    /// The map of these rows. None exactly where a row's low end isn't above the high end of the row before it. Rows
    /// that are none give a map without native priorities. Takes memory for a tree of the rows, and so much work as
    /// sorting them would; an error is out of memory.
    pub fn table(alloc: Global, rows: List<MapRow>) -> Result<Option<Map>, NoMemory>
        ensures none { IfOk result (λ found. IsSome found ↔ Rises rows.items) }
        ensures value { IfOk result (λ found. IfSome found (λ m. m ≡ table rows.items)) }
    {
        let Some(table) = Table::new(alloc, rows)? else {
            return Ok(None);
        };
        let shape = Shape::Table(table);
        Ok(Some(Map { shape }))
    }

    /// The native priority of a CORBA one, where it has one. Constant work for a linear map, and a logarithm of the rows for a
    /// table. Takes no memory.
    pub fn to_native(&self, p: Priority) -> Option<i32>
        ensures { result ≡ to_native self.now p }
    {
        match &self.shape {
            Shape::Linear(linear) => linear.to_native(p),
            Shape::Table(table) => table.to_native(p),
        }
    }

    /// The least CORBA priority that has a native one, where one has. Constant work for a linear map, and a logarithm
    /// of the rows for a table. Takes no memory.
    pub fn to_corba(&self, n: i32) -> Option<Priority>
        ensures { FindsLeast (to_native self.now) n result }
    {
        match &self.shape {
            Shape::Linear(linear) => linear.to_corba(n),
            Shape::Table(table) => table.to_corba(n),
        }
    }
}
