//! What a net was asked.
ghost use Rattle.std.specs.Prelude.{◌≡◌, [], ◌∷◌, ◌++◌};

use crate::wanted::Wanted;
use orb_base::{Text, Told};
use std::marker::Model;

/// What a net was asked, which only proofs read. It takes no memory.
#[derive(Drop)]
pub struct History {
    hosts: Told<Text>,
    wanted: Told<Wanted>,
}

impl Model for History {
    ghost use Rattle.std.specs.Prelude.{◌≡◌, List, length};
    ghost use Rattle.orb_nets.specs.Nets.{Ask};
    ghost use Rattle.orb_nets.specs.Asks.{asks};

    ghost Value = { List Ask };

    ghost view = { λ h. asks h.hosts.items h.wanted.items };

    ghost invariant = { λ h. length h.hosts.items ≡ length h.wanted.items };
}

impl History {
    /// Nothing was asked.
    pub fn new() -> History
        ensures { result ≡ [] }
    {
        History {
            hosts: Told::new(),
            wanted: Told::new(),
        }
    }

    /// What was asked, and one call more.
    #[tactic(auto, using(crate::proofs::AskLaws::asks_more))]
    pub fn and(&self, host: &Text, wanted: Wanted) -> History
        ensures { result ≡ self.now ++ record { host = host.now; port = wanted.port; slots = wanted.slots } ∷ [] }
    {
        History {
            hosts: self.hosts.and(std::slice::from_ref(host)),
            wanted: self.wanted.and(std::slice::from_ref(&wanted)),
        }
    }
}
