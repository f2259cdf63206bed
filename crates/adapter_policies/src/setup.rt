//! Setups.
ghost use Rattle.std.specs.Prelude.{◌≡◌, ◌<◌, ◌≤◌, ◌+◌, ◌^◌, ◌∷◌, [], IfOk, length, slice_get};
ghost use Rattle.std.specs.Option.{option_copied};
ghost use Rattle.orb_base.specs.Pool.{IsWellFormed, HasSlots};
ghost use Rattle.adapter_policies.specs.BuiltIn.{built_in, built_in_with, names_setup};
ghost use Rattle.adapter_policies.specs.Index.{number_from};
ghost use Rattle.adapter_policies.specs.MapRelations.{priority_map};
ghost use Rattle.adapter_policies.specs.Publishing.{IsReferenceOf};
ghost use Rattle.adapter_policies.specs.SetupData.{setup_of};

use crate::adapter_spec::AdapterSpec;
use crate::built_in;
use crate::document::Document;
use crate::index::indexed;
use crate::making::{adapters_made, objects_made, pool_made};
use crate::object_spec::ObjectSpec;
use crate::pool_relations::{are_slots, per_slot_of, slots_of};
use crate::publishing::reference_of;
use object_refs::Ior;
use orb_base::{NoMemory, PoolSpec, Text};
use priority_maps::Map;
use std::alloc::Global;
use std::collections::HashMap;
use std::marker::Model;

/// The slots of the name service.
pub const NAMES_SLOTS: u8 = 4;

/// The connections that each slot of the name service serves.
pub const NAMES_PER_SLOT: u8 = 32;

/// What a broker serves, and how: its pool and the limits of a run, its map of priorities, its adapters and objects, each
/// numbered from 0, and the files of its interfaces and scripts.
#[derive(Drop)]
pub struct Setup {
    idl: Option<Text>,
    scripts: Option<Text>,
    mapping: Map,
    pool: PoolSpec,
    slots: u8,
    per_slot: u8,
    adapters: Vec<AdapterSpec>,
    objects: Vec<ObjectSpec>,
    /// The number of each object by its key.
    numbers: HashMap<Vec<u8>, u16>,
}

impl Model for Setup {
    ghost use Rattle.std.specs.Prelude.{◌≤◌, length};
    ghost use Rattle.orb_base.specs.Pool.{IsWellFormed, HasSlots};
    ghost use Rattle.adapter_policies.specs.Index.{IsIndexed};
    ghost use Rattle.adapter_policies.specs.SetupData.{SetupData};

    ghost Value = { SetupData };

    ghost view = { λ s. record {
      idl = s.idl;
      scripts = s.scripts;
      mapping = s.mapping;
      pool = s.pool;
      slots = s.slots;
      per_slot = s.per_slot;
      adapters = s.adapters.items;
      objects = s.objects.items;
    } };

    ghost invariant = { λ s. IsIndexed s.numbers 0 s.objects.items × (length s.objects.items ≤ 1024) × IsWellFormed s.pool × HasSlots s.slots s.per_slot };
}

impl Setup {
    /// The setup without a configuration: a pool of one static thread without lanes, with the default priority 100 and no buffering;
    /// one slot and the greatest run limits; each priority its own native one; the adapter `main`, CLIENT_PROPAGATED at 100, and
    /// its object `ping` of `IDL:Orb/Ping:1.0`.
    pub fn built_in(alloc: Global) -> Result<Setup, NoMemory>
        ensures { IfOk result (λ s. s ≡ built_in) }
    {
        let object = built_in::object(alloc)?;
        Setup::with_object(alloc, object, 1, 128)
    }

    /// The setup of the name service: as without a configuration, but with `NAMES_SLOTS` slots of `NAMES_PER_SLOT` connections and
    /// the one object `NameService` of `IDL:Orb/Names:1.0`.
    pub fn names(alloc: Global) -> Result<Setup, NoMemory>
        ensures { IfOk result (λ s. s ≡ names_setup) }
    {
        let object = built_in::names(alloc)?;
        Setup::with_object(alloc, object, NAMES_SLOTS, NAMES_PER_SLOT)
    }

    /// The setup without a configuration, but for its object and its slots.
    fn with_object(
        alloc: Global,
        object: ObjectSpec,
        slots: u8,
        per_slot: u8,
    ) -> Result<Setup, NoMemory>
        requires { HasSlots slots per_slot }
        ensures { IfOk result (λ s. s ≡ built_in_with object slots per_slot) }
    {
        let adapters = one(alloc, built_in::adapter(alloc)?)?;
        let objects = one(alloc, object)?;
        let pool = built_in::pool(alloc)?;
        if !pool.well_formed() {
            return Err(NoMemory);
        }
        let numbers = indexed(alloc, objects.as_slice())?;
        Ok(Setup {
            idl: None,
            scripts: None,
            mapping: Map::identity(),
            pool,
            slots,
            per_slot,
            adapters,
            objects,
            numbers,
        })
    }

    /// The number of the object of a key, counted from 0. None exactly where no object has it. Takes no memory; the work is that
    /// of one look-up by the key's hash.
    #[tactic(auto, unfolding(crate::specs::Index::IsIndexed))]
    pub fn find(&self, key: &[u8]) -> Option<u16>
        ensures { result ≡ number_from 0 self.now.objects key.now }
    {
        self.numbers.get(key).copied()
    }

    /// The object of a number, if it is there: there are at most 1,024.
    pub fn object(&self, n: u16) -> Option<&ObjectSpec>
        ensures few { length self.now.objects ≤ 1024 }
        ensures value { option_copied result ≡ slice_get self.now.objects n }
    {
        self.objects.get(usize::from(n))
    }

    /// The adapter of a number, if it is there.
    pub fn adapter(&self, n: u8) -> Option<&AdapterSpec>
        ensures { option_copied result ≡ slice_get self.now.adapters n }
    {
        self.adapters.get(usize::from(n))
    }

    /// The pool and the limits of a run. It can be opened.
    pub fn pool(&self) -> &PoolSpec
        ensures value { result.now ≡ self.now.pool }
        ensures well_formed { IsWellFormed result.now }
    {
        &self.pool
    }

    /// The map of priorities.
    pub fn map(&self) -> &Map
        ensures { result.now ≡ self.now.mapping }
    {
        &self.mapping
    }

    /// How many slots serve connections, 1 to 16.
    pub fn slots(&self) -> u8
        ensures value { result ≡ self.now.slots }
        ensures open { HasSlots result self.now.per_slot }
    {
        self.slots
    }

    /// How many connections each slot serves: at least 1, and with all slots together at most 128.
    pub fn per_slot(&self) -> u8
        ensures value { result ≡ self.now.per_slot }
        ensures open { HasSlots self.now.slots result }
    {
        self.per_slot
    }

    /// The name of the file of interfaces, if there is one.
    pub fn idl(&self) -> Option<&Text>
        ensures { option_copied result ≡ self.now.idl }
    {
        self.idl.as_ref()
    }

    /// The name of the file of scripts, if there is one.
    pub fn scripts(&self) -> Option<&Text>
        ensures { option_copied result ≡ self.now.scripts }
    {
        self.scripts.as_ref()
    }

    /// The reference of the object of a number at a host and a port: its interface, and one profile of IIOP 1.2, whose one component
    /// carries the adapter's priority model at the object's priority, and the adapter's bands where it has some. The number of the
    /// adapter is tested once more, and so are the lengths that an unsigned long counts.
    pub fn reference(&self, alloc: Global, n: u16, host: &Text, port: u16) -> Result<Ior, NoMemory>
        requires there { n < length self.now.objects }
        requires counted { length host.now + 1 < 2 ^ 32 }
        ensures { IfOk result (IsReferenceOf self.now n host.now port) }
    {
        let object = &self.objects[usize::from(n)];
        let Some(adapter) = self.adapters.get(usize::from(object.adapter)) else {
            return Err(NoMemory);
        };
        if object.key.len() > 4_294_967_295 {
            return Err(NoMemory);
        }
        reference_of(alloc, adapter, object, host, port)
    }
}

/// The setup that a document describes, with the defaults of what it doesn't say. That its pool and its slots can be opened
/// is tested once more.
pub fn setup_made(alloc: Global, document: Document, mapping: Map) -> Result<Setup, NoMemory>
    requires { mapping ≡ priority_map document.mapping }
    ensures { IfOk result (λ s. s ≡ setup_of document) }
{
    let pool = pool_made(alloc, &document.pool, document.server)?;
    if !pool.well_formed() {
        return Err(NoMemory);
    }
    let adapters = adapters_made(alloc, document.adapters.as_slice())?;
    let objects = objects_made(
        alloc,
        document.adapters.as_slice(),
        document.objects.as_slice(),
    )?;
    let slots = slots_of(document.server);
    let per_slot = per_slot_of(document.server);
    if !are_slots(slots, per_slot) {
        return Err(NoMemory);
    }
    let numbers = indexed(alloc, objects.as_slice())?;
    Ok(Setup {
        idl: document.idl,
        scripts: document.scripts,
        mapping,
        pool,
        slots,
        per_slot,
        adapters,
        objects,
        numbers,
    })
}

/// The list of one thing.
fn one<T: Drop>(alloc: Global, x: T) -> Result<Vec<T>, NoMemory>
    ensures { IfOk result (λ xs. xs.items ≡ x ∷ []) }
{
    let mut xs = Vec::new(alloc);
    xs.push(x)?;
    Ok(xs)
}
