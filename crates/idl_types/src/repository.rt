//! The repository.
ghost use Rattle.std.specs.Prelude.{◌≡◌, ◌+◌, ◌≤◌, ◌<◌, ◌↔◌, ◌++◌, ◌∷◌, IsTrue, false, IfSome, IfOk, IsOk, OnOk, OnErr, [], length, slice_get, map};
ghost use Rattle.std.specs.List.{list_all, list_any};
ghost use Rattle.std.specs.Str.{bytes_eq};
ghost use Rattle.indexmap.specs.IndexMap.{keys, spare};
ghost use Rattle.std.specs.Option.{option_copied, option_map};
ghost use Rattle.idl_types.specs.Things.{id_of};
ghost use Rattle.idl_types.specs.Things as things;
ghost use Rattle.idl_types.specs.Names.{names_in};
ghost use Rattle.idl_types.specs.Views.{thing_of, constant_of, type_of, exception_of, interface_of, operation_of};
ghost use Rattle.idl_types.specs.Finding as Found;
ghost use Rattle.idl_types.specs.Sound.{is_sound_thing, are_based, file_leaves, counted_leaves, is_own};
ghost use Rattle.idl_types.specs.Apart.{are_apart};
ghost use Rattle.idl_types.specs.Inherited.{inherits_in};
ghost use Rattle.idl_types.specs.Declaring.{may_declare, may_hold, is_new, IsAdded};
ghost use Rattle.idl_types.specs.BuiltIn.{with_ping, with_names, with_thing};
ghost use Rattle.idl_types.specs.References.{kind_at};
ghost use Rattle.cdr_values.specs.Kinds.{kind_of};
ghost use Rattle.idl_types.specs.Entries.{entry_things, AreKeyed, AreFolded, InsertsBehind, PutsBehind, SetsLeft};

use crate::constant::Constant;
use crate::declaration::Declaration;
use crate::exception::Exception;
use crate::folding::{folded_id, is_reserved_id};
use crate::held::Held;
use crate::interface::Interface;
use crate::leaves::spend_declaration;
use crate::marks::MARKS;
use crate::named_type::NamedType;
use crate::names::{already_bound, names, no_room, not_found};
use crate::operation::Operation;
use crate::ping::{PING_ID, ping};
use crate::soundness::is_sound;
use crate::type_ref::{TypeRef, part_element};
use cdr_values::IdlType;
use indexmap::{IndexMap, IndexSet};
use orb_base::{NoMemory, Text};
use std::alloc::Global;

/// The leaves that a file may have.
const MOST_FILE_LEAVES: u32 = 1_048_576;

/// What a file declares, in order, each thing by its repository id.
#[derive(Drop)]
pub struct Repository {
    alloc: Global,
    declared: IndexMap<Vec<u8>, Held>,
    /// The ids in lower case.
    folded: IndexSet<Vec<u8>>,
    /// How many leaves a file may still have.
    left: u32,
    ghost keyed: { AreKeyed declared.entries },
    ghost room: { length declared.entries ≤ 524288 },
    ghost each: { IsTrue (list_all is_sound_thing (entry_things declared.entries)) },
    ghost ids: { IsTrue (are_apart (map id_of (entry_things declared.entries))) },
    ghost based: { IsTrue (are_based [] (entry_things declared.entries)) },
    ghost inherited: { IsTrue (list_all (inherits_in (entry_things declared.entries)) (entry_things declared.entries)) },
    ghost own: { IsTrue (list_all is_own (entry_things declared.entries)) },
    ghost by_case: { AreFolded folded.keys declared.entries },
    ghost counted: { left + file_leaves (entry_things declared.entries) ≡ 1048576 },
}

impl Repository {
    ghost use Rattle.idl_types.specs.Contents.{things_of};

    /// The repository that declares nothing. Takes no memory.
    pub fn new(alloc: Global) -> Repository
        ensures { things_of result ≡ [] }
    {
        Repository {
            alloc,
            declared: IndexMap::new(alloc),
            folded: IndexSet::new(alloc),
            left: MOST_FILE_LEAVES,
        }
    }

    /// How many things are declared.
    pub fn len(&self) -> usize
        ensures { result ≡ length (things_of self.now) }
    {
        self.declared.len()
    }

    /// Whether nothing is declared.
    pub fn is_empty(&self) -> bool
        ensures { IsTrue result ↔ (things_of self.now ≡ []) }
    {
        self.declared.is_empty()
    }

    /// The thing at an index in order of declaration, or None after the last one. Takes no memory.
    pub fn nth(&self, at: usize) -> Option<&Declaration>
        ensures { option_map thing_of (option_copied result) ≡ slice_get (things_of self.now) at }
    {
        let (_, held) = self.declared.get_index(at)?;
        Some(&held.declaration)
    }

    /// The index of the thing of an id. Costs a hash. Takes no memory.
    pub fn place_of(&self, id: &[u8]) -> Option<usize>
        ensures place { result ≡ Found.place_named (things_of self.now) id.now }
        ensures within { IfSome result (λ at. (at < length (things_of self.now)) × (at < 524288)) }
    {
        self.declared.get_index_of(id)
    }

    /// The thing of an id, as it is held.
    fn held(&self, id: &[u8]) -> Option<&Held>
        ensures { option_map (λ h. thing_of h.declaration) (option_copied result) ≡ Found.thing_named (things_of self.now) id.now }
    {
        match self.place_of(id) {
            Some(at) => self.held_at(at),
            None => None,
        }
    }

    fn held_at(&self, at: usize) -> Option<&Held>
        ensures { option_map (λ h. thing_of h.declaration) (option_copied result) ≡ slice_get (things_of self.now) at }
    {
        let (_, held) = self.declared.get_index(at)?;
        Some(held)
    }

    /// The thing of an id. Costs a hash. Takes no memory.
    pub fn find(&self, id: &[u8]) -> Option<&Declaration>
        ensures { option_map thing_of (option_copied result) ≡ Found.thing_named (things_of self.now) id.now }
    {
        match self.held(id) {
            Some(held) => Some(&held.declaration),
            None => None,
        }
    }

    /// The constant of an id. Costs a hash. Takes no memory.
    pub fn constant(&self, id: &[u8]) -> Option<&Constant>
        ensures { option_map constant_of (option_copied result) ≡ Found.constant_named (things_of self.now) id.now }
    {
        match self.find(id) {
            Some(Declaration::Constant(constant)) => Some(constant),
            _ => None,
        }
    }

    /// The named type of an id. Costs a hash. Takes no memory.
    pub fn named_type(&self, id: &[u8]) -> Option<&NamedType>
        ensures { option_map type_of (option_copied result) ≡ Found.type_named (things_of self.now) id.now }
    {
        match self.find(id) {
            Some(Declaration::Named(named)) => Some(named),
            _ => None,
        }
    }

    /// The exception of an id. Costs a hash. Takes no memory.
    pub fn exception(&self, id: &[u8]) -> Option<&Exception>
        ensures { option_map exception_of (option_copied result) ≡ Found.exception_named (things_of self.now) id.now }
    {
        match self.find(id) {
            Some(Declaration::Exception(exception)) => Some(exception),
            _ => None,
        }
    }

    /// The interface of an id. Its operations begin with those that its bases give. Costs a hash. Takes no memory.
    pub fn interface(&self, id: &[u8]) -> Option<&Interface>
        ensures inherited { IfSome result (λ i. IsTrue (inherits_in (things_of self.now) (things.interface (interface_of i.now)))) }
        ensures found { option_map interface_of (option_copied result) ≡ Found.interface_named (things_of self.now) id.now }
    {
        match self.find(id) {
            Some(Declaration::Interface(interface)) => Some(interface),
            _ => None,
        }
    }

    /// The operation of a name, in the interface of an id; inherited ones are found too. Costs two hashes. Takes no
    /// memory.
    pub fn find_operation(&self, id: &[u8], name: &[u8]) -> Option<&Operation>
        ensures { option_map operation_of (option_copied result)
            ≡ Found.operation_named (things_of self.now) id.now name.now }
    {
        match self.held(id) {
            Some(held) => held.operation(name),
            None => None,
        }
    }

    /// The type that a reference stands for, or None where it stands for none. Takes no memory.
    pub fn type_at(&self, reference: TypeRef) -> Option<&IdlType>
        ensures { option_map kind_of (option_copied result) ≡ kind_at (things_of self.now) reference }
    {
        match self.nth(reference.place as usize) {
            Some(declaration) => part_element(declaration, reference.part, reference.steps),
            None => None,
        }
    }

    /// Declares one more thing. Answers out of memory also where 524,288 things are declared, more than a text of
    /// 1,048,576 bytes can declare; then nothing has changed.
    pub fn declare(&mut self, declaration: Declaration) -> Result<(), NoMemory>
        requires { IsTrue (may_declare (things_of self.old) (thing_of declaration)) }
        ensures ok { OnOk result (things_of self.new ≡ things_of self.old ++ thing_of declaration ∷ []) }
        ensures err { OnErr result (things_of self.new ≡ things_of self.old) }
    {
        match spend_declaration(&declaration, self.left) {
            Some(left) => self.hold(declaration, left),
            None => Err(NoMemory),
        }
    }

    /// Whether a file may declare this after what is declared: its types are lawful and no larger than they may be, the
    /// names in them and its id are told apart from all others there, case aside, the id isn't in the module Orb, its
    /// operations have different names, its bases are interfaces that are declared, its operations begin with those that
    /// these give, and the file's leaves stay within their limit. It is asked before `declare` by who makes declarations
    /// by hand. Work grows with the size of the declaration and of its bases.
    pub fn accepts(&self, declaration: &Declaration) -> Result<bool, NoMemory>
        ensures { IfOk result (λ b. b ≡ may_declare (things_of self.now) (thing_of declaration.now)) }
    {
        if is_reserved_id(declaration.id()) {
            return Ok(false);
        }
        if !self.is_derived(self.alloc, declaration)? {
            return Ok(false);
        }
        if !self.has_new_id(declaration)? {
            return Ok(false);
        }
        match spend_declaration(declaration, self.left) {
            Some(_) => is_sound(self.alloc, declaration),
            None => Ok(false),
        }
    }

    /// Whether no thing has the id, case aside. Costs a hash.
    fn has_new_id(&self, declaration: &Declaration) -> Result<bool, NoMemory>
        ensures { IfOk result (λ b. b ≡ is_new (things_of self.now) (thing_of declaration.now)) }
    {
        let low = folded_id(self.alloc, declaration.id())?;
        Ok(!self.folded.contains(low.as_slice()))
    }

    /// The repository with the built-in module, whose one interface is put after the others where it isn't there yet.
    pub fn with_ping(self) -> Result<Repository, NoMemory>
        ensures { IfOk result (λ r. things_of r ≡ with_ping (things_of self)) }
    {
        if self.place_of(PING_ID).is_some() {
            return Ok(self);
        }
        let ping = ping(self.alloc)?;
        self.and_held(ping)
    }

    /// The repository with the interface of the name service and its exceptions, each of which is put after the others where its id
    /// isn't there yet.
    #[tactic(auto, using(crate::proofs::BuiltInAdded::not_found_adds, crate::proofs::BuiltInAdded::already_bound_adds, crate::proofs::BuiltInAdded::no_room_adds, crate::proofs::Holding::names_adds))]
    pub fn with_names(self) -> Result<Repository, NoMemory>
        ensures { IfOk result (λ r. things_of r ≡ with_names (things_of self)) }
    {
        let alloc = self.alloc;
        let repository = self.with_added(not_found(alloc)?)?;
        let repository = repository.with_added(already_bound(alloc)?)?;
        let repository = repository.with_added(no_room(alloc)?)?;
        repository.with_added(names(alloc)?)
    }

    /// The repository with a built-in thing, which is put after the others where its id isn't there yet.
    #[tactic(auto, using(crate::proofs::BuiltInAdded::may_add))]
    fn with_added(self, declaration: Declaration) -> Result<Repository, NoMemory>
        requires { IsAdded (thing_of declaration) }
        ensures { IfOk result (λ r. things_of r ≡ with_thing (thing_of declaration) (things_of self)) }
    {
        if self.place_of(declaration.id().as_slice()).is_some() {
            return Ok(self);
        }
        self.and_held(declaration)
    }

    fn and_held(mut self, declaration: Declaration) -> Result<Repository, NoMemory>
        requires may { IsTrue (may_hold (things_of self) (thing_of declaration)) }
        requires free { counted_leaves (thing_of declaration) ≡ 0 }
        ensures { IfOk result (λ r. things_of r ≡ things_of self ++ thing_of declaration ∷ []) }
    {
        let left = self.left;
        self.hold(declaration, left)?;
        Ok(self)
    }

    fn hold(&mut self, declaration: Declaration, left: u32) -> Result<(), NoMemory>
        requires may { IsTrue (may_hold (things_of self.old) (thing_of declaration)) }
        requires left { left + (file_leaves (things_of self.old) + counted_leaves (thing_of declaration)) ≡ 1048576 }
        ensures ok { OnOk result (things_of self.new ≡ things_of self.old ++ thing_of declaration ∷ []) }
        ensures err { OnErr result (things_of self.new ≡ things_of self.old) }
    {
        if self.declared.len() >= MARKS {
            return Err(NoMemory);
        }
        let id = declaration.id();
        let key = Vec::from_slice(self.alloc, id.as_slice())?;
        let low = folded_id(self.alloc, id)?;
        let held = Held::new(self.alloc, declaration)?;
        take_in(
            &mut self.declared,
            &mut self.folded,
            &mut self.left,
            key,
            low,
            held,
            left,
        )
    }
}

/// Inserts after the other entries, under a key that is none of theirs, puts a name after the others, and sets what is
/// left; or changes nothing.
fn take_in(
    declared: &mut IndexMap<Vec<u8>, Held>,
    folded: &mut IndexSet<Vec<u8>>,
    free: &mut u32,
    key: Vec<u8>,
    low: Vec<u8>,
    held: Held,
    left: u32,
) -> Result<(), NoMemory>
    requires key { list_any (λ k. bytes_eq key.items k.items) (keys declared.old) ≡ false }
    requires low { list_any (bytes_eq low.items) (names_in folded.old.keys) ≡ false }
    ensures entries { InsertsBehind result declared.old.entries (key, held) declared.new.entries }
    ensures names { PutsBehind result (names_in folded.old.keys) low.items (names_in folded.new.keys) }
    ensures free { SetsLeft result free.old left free.new }
{
    declared.reserve(1)?;
    put_behind(folded, low)?;
    *free = left;
    insert_behind(declared, key, held)
}

/// Inserts after the other entries, under a key that is none of theirs. With room it can't fail.
fn insert_behind(
    declared: &mut IndexMap<Vec<u8>, Held>,
    key: Vec<u8>,
    held: Held,
) -> Result<(), NoMemory>
    requires { list_any (λ k. bytes_eq key.items k.items) (keys declared.old) ≡ false }
    ensures entries { InsertsBehind result declared.old.entries (key, held) declared.new.entries }
    ensures room { 1 ≤ spare declared.old → IsOk result }
{
    declared.insert(key, held)?;
    Ok(())
}

/// Puts a name that isn't there after the others.
fn put_behind(names: &mut IndexSet<Vec<u8>>, name: Vec<u8>) -> Result<(), NoMemory>
    requires { list_any (bytes_eq name.items) (names_in names.old.keys) ≡ false }
    ensures { PutsBehind result (names_in names.old.keys) name.items (names_in names.new.keys) }
{
    names.insert(name)?;
    Ok(())
}
