//! What is known in the middle of a text: own profile.
ghost use Rattle.std.specs.Prelude.{◌≡◌, map};
ghost use Rattle.idl_scopes.specs.Views.{table_of};
ghost use Rattle.idl_names.specs.State.{no_parts, nothing_built};
ghost use Rattle.idl_names.specs.Views.{built_of, parts_of, thing_of};

use crate::sizes::SizedType;
use cdr_values::{Case, IdlType, Member};
use idl_constants::ConstValue;
use idl_lookup::Head;
use idl_scopes::{Inherited, Place, Scopes};
use idl_types::{Operation, Param, Way};
use indexmap::IndexSet;
use orb_base::{List, Text};
use std::alloc::Global;

/// What a declaration stands for beside its scope.
#[derive(Drop)]
pub enum Thing {
    /// A module, a member, a case or a parameter, or what hasn't ended.
    Nothing,
    /// The places of an interface's bases, and of its operations, inherited ones first.
    Interface(Vec<u32>, Vec<u32>),
    Type(SizedType),
    Exception(Vec<Member>),
    Constant(IdlType, ConstValue),
    /// The id of the enum, and the number.
    Enumerator(Text, u32),
    /// An operation, or those of an attribute, and their leaves.
    Operations(Vec<Operation>, u32),
}

/// The scoped name that is read.
#[derive(Clone, Copy, Debug, PartialEq, Eq)]
pub(crate) enum Search {
    Fresh,
    Rooted,
    /// What its parts so far have found.
    Found(u32),
}

/// A value, where it begins, and its literal, which is after a sign. For a name both are its last part.
#[derive(Drop)]
pub(crate) struct Valued {
    pub value: ConstValue,
    pub at: Place,
    pub literal: Place,
}

/// The parts so far of the declaration that is read; they are empty outside of a declaration.
#[derive(Drop)]
pub(crate) struct Parts {
    pub bases: Vec<u32>,
    /// The scopes that they give.
    pub given: Inherited,
    pub members: Vec<Member>,
    pub enumerators: Vec<Text>,
    pub discriminator: IdlType,
    pub cases: Vec<Case>,
    /// All labels of the union so far.
    pub taken: IndexSet<i128>,
    /// Those of the case that is read.
    pub labels: Vec<i128>,
    pub is_default: bool,
    pub readonly: bool,
    pub oneway: bool,
    pub way: Way,
    pub head: Head,
    pub result: Option<IdlType>,
    pub params: List<Param>,
    pub raises: List<Text>,
    pub leaves: u32,
    pub levels: u32,
}

/// The names that are declared so far, and what is read.
#[derive(Drop)]
pub struct Names {
    pub(crate) alloc: Global,
    pub(crate) scopes: Scopes,
    pub(crate) things: Vec<Thing>,
    pub(crate) here: usize,
    pub(crate) leaves: u32,
    pub(crate) search: Search,
    pub(crate) last: Place,
    pub(crate) newest: SizedType,
    pub(crate) bound: u32,
    pub(crate) value: Valued,
    /// Of an array, the outermost first.
    pub(crate) lengths: Vec<u32>,
    pub(crate) parts: Parts,
}

impl Parts {
    /// None.
    pub(crate) fn new(alloc: Global) -> Parts
        ensures { parts_of result ≡ no_parts }
    {
        Parts {
            bases: Vec::new(alloc),
            given: Inherited::new(alloc),
            members: Vec::new(alloc),
            enumerators: Vec::new(alloc),
            discriminator: IdlType::Octet,
            cases: Vec::new(alloc),
            taken: IndexSet::new(alloc),
            labels: Vec::new(alloc),
            is_default: false,
            readonly: false,
            oneway: false,
            way: Way::Input,
            head: Head::Outside,
            result: None,
            params: List::new(alloc),
            raises: List::new(alloc),
            leaves: 0,
            levels: 0,
        }
    }
}

impl Names {
    /// Nothing is declared. Takes no memory.
    pub fn new(alloc: Global) -> Names
        ensures { built_of result ≡ nothing_built }
    {
        let nowhere = Place { line: 0, column: 0 };
        Names {
            alloc,
            scopes: Scopes::new(alloc),
            things: Vec::new(alloc),
            here: 0,
            leaves: 0,
            search: Search::Fresh,
            last: nowhere,
            newest: SizedType {
                kind: IdlType::Octet,
                leaves: 1,
                levels: 0,
            },
            bound: 0,
            value: Valued {
                value: ConstValue::Number(0),
                at: nowhere,
                literal: nowhere,
            },
            lengths: Vec::new(alloc),
            parts: Parts::new(alloc),
        }
    }
    /// What is declared: the scopes, and by the same places what the declarations stand for. Takes no memory.
    pub fn into_parts(self) -> (Scopes, Vec<Thing>)
        ensures scopes { table_of result.0 ≡ (built_of self).scopes }
        ensures things { map thing_of result.1.items ≡ (built_of self).things }
    {
        (self.scopes, self.things)
    }
}
