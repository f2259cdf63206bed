//! Types of IDL: CORBA 3.0.3, section 3.11.

use orb_base::{List, Text};

/// A member of a struct or an exception.
#[cycle(idl_type)]
#[derive(Drop)]
pub struct Member {
    pub name: Text,
    pub kind: IdlType,
}

/// A case of a union.
#[cycle(idl_type)]
#[derive(Drop)]
pub struct Case {
    /// The numbers of the discriminator that choose it.
    pub labels: List<i128>,
    /// Whether it is chosen where no label of any case is the discriminator's number.
    pub is_default: bool,
    pub member: Member,
}

/// A type. Whatever goes through a type goes down by its depth on the stack, as does its drop.
#[cycle(idl_type)]
#[derive(Drop)]
pub enum IdlType {
    Boolean,
    Octet,
    Char,
    Short,
    UShort,
    Long,
    ULong,
    LongLong,
    ULongLong,
    /// A string of at most so many bytes, the NUL not counted; 0 is no bound.
    Words(u32),
    /// A sequence of at most so many elements; 0 is no bound.
    Seq(Box<IdlType>, u32),
    /// An array of so many elements.
    Array(Box<IdlType>, u32),
    /// A struct: its name, its members in order.
    Struct(Text, Vec<Member>),
    /// A union: its name, the type of its discriminator, its cases in order.
    Union(Text, Box<IdlType>, Vec<Case>),
    /// An enum: its name, its labels, which have the numbers from 0.
    Enum(Text, List<Text>),
}
