//! One object that keeps a value, as threads share it.
ghost use Rattle.std.specs.Prelude.{◌≡◌, ◌≤◌, IfOk, is_none, true};
ghost use Rattle.object_cell.specs.declared.call.ObjectCall.TheVariants.{Begin};
ghost use Rattle.object_cell.specs.declared.call.ObjectReply.TheVariants.{Stored};
ghost use Rattle.object_cell.specs.Machine.{step, is_ready, IsSound, Steps, storing, opening};

use crate::call::{ObjectCall, ObjectReply};
use crate::limits::MAX_SLOTS;
use crate::staging::Staging;
use flat_seats::flat_heir;
use orb_base::{Arc, NoMemory, Text};
use std::marker::Model;
use turn_cell::Object;

/// One object of an interface, with its value and who holds it. Its jobs run outside the turn.
#[derive(Drop)]
pub struct ObjectCell<S: Staging> {
    staging: Arc<S>,
    interface: Text,
    slots: u8,
    share: u32,
    value: Option<Arc<S::State>>,
    holder: Option<u32>,
}

impl<S: Staging> Model for ObjectCell<S> {
    ghost use Rattle.object_cell.specs.Machine.{Machine};

    ghost Value = { Machine S S.State };

    ghost view = { λ c. record {
      staging = c.staging;
      interface = c.interface;
      slots = c.slots;
      share = c.share;
      value = c.value;
      holder = c.holder;
    } };
}

impl<S: Staging> ObjectCell<S> {
    /// An object of an interface, with the value that such an object opens with, which nobody holds. Each of so many slots may run
    /// `share` jobs on it. Takes memory for that value alone.
    pub fn new(
        staging: Arc<S>,
        interface: Text,
        slots: u8,
        share: u32,
    ) -> Result<ObjectCell<S>, NoMemory>
        ensures { IfOk result (λ c. c ≡ opening S.zero staging interface slots share) }
    {
        let value = staging.get().zero(&interface)?;
        Ok(ObjectCell {
            staging,
            interface,
            slots,
            share,
            value,
            holder: None,
        })
    }

    /// Whether the call is answered now; else it waits. Takes no memory. Constant work.
    pub fn ready(&self, call: &ObjectCall<S::State>) -> bool
        ensures { result ≡ is_ready self.now call.now }
    {
        match call {
            ObjectCall::Begin { .. } => self.holder.is_none(),
            ObjectCall::Commit { .. } => true,
        }
    }

    /// Answers a call, with the reply twice: one for the history, one for the caller. When out of memory nothing changes.
    /// Takes memory for shares of the value alone, before the first change. Constant work.
    pub fn apply(
        &mut self,
        call: &ObjectCall<S::State>,
    ) -> Result<(ObjectReply<S::State>, ObjectReply<S::State>), NoMemory>
        ensures { Steps self.old (step self.old call.now) self.new result }
    {
        match call {
            ObjectCall::Begin { by } => self.begin(*by),
            ObjectCall::Commit { value, .. } => self.store(value),
        }
    }

    // A caller takes hold of the value.
    fn begin(&mut self, by: u32) -> Result<(ObjectReply<S::State>, ObjectReply<S::State>), NoMemory>
        ensures { Steps self.old (step self.old (Begin by)) self.new result }
    {
        let one = share(&self.value)?;
        let other = share(&self.value)?;
        self.holder = Some(by);
        Ok((ObjectReply::Value(one), ObjectReply::Value(other)))
    }

    // The value is this one from now on, and nobody holds it.
    fn store(
        &mut self,
        value: &Option<Arc<S::State>>,
    ) -> Result<(ObjectReply<S::State>, ObjectReply<S::State>), NoMemory>
        ensures { Steps self.old (storing value.now self.old, Stored) self.new result }
    {
        self.value = share(value)?;
        self.holder = None;
        Ok((ObjectReply::Stored, ObjectReply::Stored))
    }
}

/// A share of a value, where there is one.
fn share<V: Drop>(value: &Option<Arc<V>>) -> Result<Option<Arc<V>>, NoMemory>
    ensures { IfOk result (λ v. v ≡ value.now) }
{
    match value {
        Some(value) => Ok(Some(value.share()?)),
        None => Ok(None),
    }
}

impl<S: Staging> Object for ObjectCell<S> {
    ghost use Rattle.object_cell.specs.Machine.{step, is_ready, IsSound, Opens};
    ghost use Rattle.object_cell.specs.Callers.{heir, IsFit};
    ghost use Rattle.object_cell.specs.Held.{one_parent_of, never_first_of, enough};

    type Call = ObjectCall<S::State>;

    type Reply = ObjectReply<S::State>;

    ghost ready = { is_ready };

    ghost sound = { IsSound S.staged };

    ghost step = { step };

    ghost opens = { Opens S.zero };

    ghost heir = { heir };

    ghost fit = { IsFit S.staged };

    fn ready(&self, call: &ObjectCall<S::State>) -> bool {
        ObjectCell::ready(self, call)
    }

    fn apply(
        &mut self,
        call: &ObjectCall<S::State>,
    ) -> Result<(ObjectReply<S::State>, ObjectReply<S::State>), NoMemory> {
        ObjectCell::apply(self, call)
    }

    fn heir_of(n: u32, k: u32) -> Option<u32> {
        flat_heir(MAX_SLOTS, n, k)
    }

    /// A Begin waits for a Commit.
    fn rings(
        &self,
        call: &ObjectCall<S::State>,
        _reply: &ObjectReply<S::State>,
        _bell: u32,
    ) -> bool {
        matches!(call, ObjectCall::Commit { .. })
    }

    ghost one_parent = { one_parent_of };

    ghost never_first = { never_first_of };

    ghost enough = { enough S.zero S.staged };
}
