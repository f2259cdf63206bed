//! The map, as threads share it.
ghost use Rattle.std.specs.Prelude.{◌≡◌, [], IfOk, true, false, length};
ghost use Rattle.name_map.specs.declared.call.NamesCall.TheVariants.{Bind, Rebind, Resolve, Unbind, Next};
ghost use Rattle.name_map.specs.declared.call.NamesReply.TheVariants.{Stored};
ghost use Rattle.name_map.specs.Bindings as Spec;
ghost use Rattle.name_map.specs.Machine.{step, added, Steps};
ghost use Rattle.name_map.specs.Places as places;

use crate::binding::Binding;
use crate::call::{NamesCall, NamesReply};
use crate::limits::{MAX_CALLERS, MAX_KEYS};
use crate::look::{find, is_there, next, place};
use flat_seats::flat_heir;
use orb_base::{Arc, NoMemory, Text};
use std::alloc::Global;
use std::marker::Model;
use turn_cell::Object;

/// A finite map from texts to texts, kept as bindings in the order of their keys.
///
/// A key is found by halving. A new key, or one that is taken out, moves the bindings after it.
#[derive(Drop)]
pub struct NamesCell {
    bindings: Vec<Binding>,
}

impl Model for NamesCell {
    ghost use Rattle.std.specs.Prelude.{◌≤◌, List};
    ghost use Rattle.std.specs.Vec.{vec_capacity};
    ghost use Rattle.name_map.specs.declared.binding.Binding.{Binding};
    ghost use Rattle.name_map.specs.declared.limits.TheConstants.{MAX_KEYS};
    ghost use Rattle.name_map.specs.Machine.{IsMap};

    ghost Value = { List Binding };

    ghost view = { λ n. n.bindings.items };

    // The room of all keys is taken when it opens.
    ghost invariant = { λ n. IsMap n.bindings.items × (MAX_KEYS ≤ vec_capacity n.bindings) };
}

/// Shares of a key and of its target.
fn share(key: &Arc<Text>, target: &Arc<Text>) -> Result<Binding, NoMemory>
    ensures { IfOk result (λ b. b ≡ Spec.binding key.now target.now) }
{
    let key = key.share()?;
    let target = target.share()?;
    Ok(Binding { key, target })
}

impl NamesCell {
    /// The empty map. Takes the room of all its keys.
    pub fn new(alloc: Global) -> Result<NamesCell, NoMemory>
        ensures { IfOk result (λ n. n ≡ []) }
    {
        Ok(NamesCell {
            bindings: Vec::with_capacity(alloc, MAX_KEYS)?,
        })
    }

    // Binds a new key, where there is room for one.
    fn add(
        &mut self,
        at: usize,
        key: &Arc<Text>,
        target: &Arc<Text>,
    ) -> Result<(NamesReply, NamesReply), NoMemory>
        requires place { at ≡ places.place key.now self.old }
        requires new { Spec.has key.now self.old ≡ false }
        ensures { Steps self.old (added key.now target.now self.old) self.new result }
    {
        if self.bindings.len() >= MAX_KEYS {
            return Ok((NamesReply::NoRoom, NamesReply::NoRoom));
        }
        let binding = share(key, target)?;
        match self.bindings.insert(at, binding) {
            Ok(()) => Ok((NamesReply::Stored, NamesReply::Stored)),
            Err(_) => unreachable!(),
        }
    }

    // Binds a key anew that is there.
    fn replace(
        &mut self,
        at: usize,
        key: &Arc<Text>,
        target: &Arc<Text>,
    ) -> Result<(NamesReply, NamesReply), NoMemory>
        requires place { at ≡ places.place key.now self.old }
        requires old { Spec.has key.now self.old ≡ true }
        ensures { Steps self.old (Spec.put key.now target.now self.old, Stored) self.new result }
    {
        let binding = share(key, target)?;
        self.bindings[at] = binding;
        Ok((NamesReply::Stored, NamesReply::Stored))
    }

    fn bind(
        &mut self,
        key: &Arc<Text>,
        target: &Arc<Text>,
    ) -> Result<(NamesReply, NamesReply), NoMemory>
        ensures { Steps self.old (step self.old (Bind key.now target.now)) self.new result }
    {
        let at = place(self.bindings.as_slice(), key.get().as_slice());
        if is_there(self.bindings.as_slice(), at, key.get().as_slice()) {
            return Ok((NamesReply::AlreadyBound, NamesReply::AlreadyBound));
        }
        self.add(at, key, target)
    }

    fn rebind(
        &mut self,
        key: &Arc<Text>,
        target: &Arc<Text>,
    ) -> Result<(NamesReply, NamesReply), NoMemory>
        ensures { Steps self.old (step self.old (Rebind key.now target.now)) self.new result }
    {
        let at = place(self.bindings.as_slice(), key.get().as_slice());
        if is_there(self.bindings.as_slice(), at, key.get().as_slice()) {
            return self.replace(at, key, target);
        }
        self.add(at, key, target)
    }

    fn resolve(&self, key: &[u8]) -> Result<(NamesReply, NamesReply), NoMemory>
        ensures { Steps self.now (step self.now (Resolve key.now)) self.now result }
    {
        match find(self.bindings.as_slice(), key) {
            Some(binding) => {
                let one = binding.target.share()?;
                let other = binding.target.share()?;
                Ok((NamesReply::Target(one), NamesReply::Target(other)))
            }
            None => Ok((NamesReply::NotFound, NamesReply::NotFound)),
        }
    }

    fn unbind(&mut self, key: &[u8]) -> Result<(NamesReply, NamesReply), NoMemory>
        ensures { Steps self.old (step self.old (Unbind key.now)) self.new result }
    {
        let at = place(self.bindings.as_slice(), key);
        if !is_there(self.bindings.as_slice(), at, key) {
            return Ok((NamesReply::NotFound, NamesReply::NotFound));
        }
        let _ = self.bindings.remove(at);
        Ok((NamesReply::Stored, NamesReply::Stored))
    }

    fn next(&self, after: &[u8]) -> Result<(NamesReply, NamesReply), NoMemory>
        ensures { Steps self.now (step self.now (Next after.now)) self.now result }
    {
        match next(self.bindings.as_slice(), after) {
            Some(binding) => {
                let one = binding.key.share()?;
                let other = binding.key.share()?;
                Ok((NamesReply::Key(one), NamesReply::Key(other)))
            }
            None => Ok((NamesReply::NotFound, NamesReply::NotFound)),
        }
    }

    // How many keys there are.
    fn count(&self) -> u32
        ensures { result ≡ length self.now }
    {
        self.bindings.len() as u32
    }

    /// Answers a call, with the reply twice: one for the history, one for the caller. When out of memory nothing changes.
    /// Takes memory for shares alone, before the first change.
    pub fn apply(&mut self, call: &NamesCall) -> Result<(NamesReply, NamesReply), NoMemory>
        ensures { Steps self.old (step self.old call.now) self.new result }
    {
        match call {
            NamesCall::Bind { key, target } => self.bind(key, target),
            NamesCall::Rebind { key, target } => self.rebind(key, target),
            NamesCall::Resolve { key } => self.resolve(key.get().as_slice()),
            NamesCall::Unbind { key } => self.unbind(key.get().as_slice()),
            NamesCall::Next { after } => self.next(after.get().as_slice()),
            NamesCall::Size => {
                let count = self.count();
                Ok((NamesReply::Count(count), NamesReply::Count(count)))
            }
        }
    }
}

impl Object for NamesCell {
    ghost use Rattle.std.specs.Prelude.{true};
    ghost use Rattle.flat_seats.specs.Flat.{flat};
    ghost use Rattle.flat_seats.proofs.OneTree.{flat_injects, flat_not_first};
    ghost use Rattle.name_map.specs.declared.limits.TheConstants.{MAX_CALLERS};
    ghost use Rattle.name_map.specs.Machine.{step};
    ghost use Rattle.name_map.specs.Callers.{Opens, IsFit};

    type Call = NamesCall;

    type Reply = NamesReply;

    ghost ready = { λ _ _. true };

    ghost sound = { λ _ _. Unit {0} };

    ghost step = { step };

    ghost opens = { Opens };

    ghost heir = { flat MAX_CALLERS };

    ghost fit = { IsFit };

    fn ready(&self, _call: &NamesCall) -> bool {
        true
    }

    fn apply(&mut self, call: &NamesCall) -> Result<(NamesReply, NamesReply), NoMemory> {
        NamesCell::apply(self, call)
    }

    fn heir_of(n: u32, k: u32) -> Option<u32> {
        flat_heir(MAX_CALLERS, n, k)
    }

    /// Nobody waits for another's call.
    fn rings(&self, _call: &NamesCall, _reply: &NamesReply, _bell: u32) -> bool {
        false
    }

    ghost one_parent = { flat_injects MAX_CALLERS };

    ghost never_first = { flat_not_first MAX_CALLERS };

    ghost enough = { λ _ _ _ _ _ _ _ _. tt };
}
