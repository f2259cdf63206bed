//! What lies in the table after a turn cell, and the table's rule.
use crate::entry::Entry;
use crate::log::Log;
use crate::object::Object;
use atomic_table::TableRule;
use std::collections::LinkedList;
use std::marker::PhantomData;
use std::snapshot::Snapshot;

/// What the slot holds: the object beside its history.
#[derive(Drop)]
pub struct Core<O: Object> {
    pub object: O,
    pub history: Log<Entry<O>>,
}

/// What a cell was opened with: the object, and the entries that its history has room for.
pub struct Terms<O> {
    pub opening: O,
    pub length: u32,
}

/// What a seat at the table knows. No value of it is made.
pub struct Known<O: Object> {
    pub terms: Option<Terms<O>>,
    pub number: Option<u32>,
    pub turn: bool,
    pub seen: LinkedList<Entry<O>>,
    pub mine: LinkedList<Entry<O>>,
    /// What another seat had seen that was joined or met, until the next load.
    pub told: LinkedList<Entry<O>>,
    pub splits: u32,
    pub ended: LinkedList<Gone<O>>,
}

/// What a seat had that was joined into another. No value of it is made.
pub struct Gone<O: Object> {
    pub number: u32,
    pub calls: LinkedList<Entry<O>>,
    pub splits: u32,
}

/// The table's rule.
pub struct OneHistory<O> {
    object: PhantomData<O>,
}

impl<O: Object> TableRule<Option<Core<O>>, Known<O>, Snapshot<Terms<O>>> for OneHistory<O> {
    ghost use Rattle.turn_cell.specs.Rule.{Kept};
    ghost use Rattle.turn_cell.specs.Views.{starting};

    ghost holds = { λ key. Kept O.ready O.sound O.step O.opens O.fit O.heir key.value };

    ghost first = { λ key. starting key.value };
}

/// A seat at the table.
pub type Place<O> = atomic_table::Seat<Option<Core<O>>, Known<O>>;
