//! What several of these tests stand on: a servant, lists of numbers, and bytes in parts.
ghost use Rattle.std.specs.Prelude.{[]};
ghost use Rattle.orb_base.specs.declared.outcome.Outcome.TheVariants.{Returned};

use orb_base::{
    Completed, Job, List, NoMemory, Octets, Outcome, Serving, SharedOctets, Sys, SysName, Text,
};
use std::alloc::Global;

/// Answers each request with an empty body.
#[derive(Drop)]
pub struct Quick {
    pub alloc: Global,
}

impl Serving for Quick {
    ghost outcome = { λ _ _ _. Returned [] };

    fn invoke(&self, _interface: &Text, _job: &Job) -> Outcome {
        match SharedOctets::new(self.alloc, List::new(self.alloc)) {
            Ok(body) => Outcome::Returned(body),
            Err(NoMemory) => Outcome::System(Sys {
                name: SysName::NoMemory,
                minor: 1,
                completed: Completed::Maybe,
            }),
        }
    }
}

/// The list of these numbers, where there was memory.
pub fn numbers(alloc: Global, all: &[u64]) -> Option<List<u64>> {
    match Vec::from_slice(alloc, all) {
        Ok(all) => Some(List::from_vec(all)),
        Err(_) => None,
    }
}

/// Puts these parts after the bytes; whether there was memory.
pub fn join(bytes: &mut Octets, parts: &[&[u8]]) -> bool {
    for part in parts {
        if bytes.append(part).is_err() {
            return false;
        }
    }
    true
}

/// Whether the bytes are these parts, one after the other.
pub fn is_joined(bytes: &[u8], parts: &[&[u8]]) -> bool {
    let mut rest = bytes;
    for part in parts {
        match rest.strip_prefix(*part) {
            Some(after) => rest = after,
            None => return false,
        }
    }
    rest.is_empty()
}
