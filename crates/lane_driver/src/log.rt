//! The history of a run, where it is wanted.
ghost use Rattle.std.specs.Prelude.{◌≡◌, ◌∷◌, [], option_map, OnOk, None, Some};
ghost use Rattle.lane_machine.specs.Histories.{History};
ghost use Rattle.lane_driver.specs.Driving.{entry, Logged};

use lane_machine::{LaneCall, LaneReply, Lanes};
use orb_base::{List, NoMemory};
use std::alloc::Global;
use std::marker::Model;
use turn_cell::Entry;

/// A call of the lane machine, the number of who made it, and the reply.
pub type Noted = Entry<Lanes>;

/// A growing history, or none.
#[derive(Drop)]
pub struct Log {
    entries: Option<List<Noted>>,
}

impl Model for Log {
    ghost use Rattle.std.specs.Prelude.{Option, option_map};
    ghost use Rattle.lane_machine.specs.Histories.{History};

    ghost Value = { Option History };

    ghost view = { λ l. option_map (λ es. es.items) l.entries };
}

impl Log {
    /// Keeps no history. Takes no memory.
    pub fn none() -> Log
        ensures { result ≡ None }
    {
        Log { entries: None }
    }

    /// Keeps a history, which is empty. Takes no memory until the first call is noted.
    pub fn kept(alloc: Global) -> Log
        ensures { result ≡ Some [] }
    {
        Log {
            entries: Some(List::new(alloc)),
        }
    }

    /// Notes one more call of the one caller, number 0, where a history is kept. When out of memory the history stays.
    pub fn note(&mut self, call: LaneCall, reply: LaneReply) -> Result<(), NoMemory>
        ensures { OnOk result (Logged (entry call reply ∷ []) self.old self.new) }
    {
        match &mut self.entries {
            None => Ok(()),
            Some(entries) => match entries.push(Entry {
                caller: 0,
                call,
                reply,
            }) {
                Ok(()) => Ok(()),
                Err(_) => Err(NoMemory),
            },
        }
    }

    /// The history, if one is kept.
    pub fn into_entries(self) -> Option<List<Noted>>
        ensures { option_map {U = History} (λ es. es.items) result ≡ self }
    {
        self.entries
    }
}
