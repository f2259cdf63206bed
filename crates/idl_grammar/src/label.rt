//! What is done at a token of IDL, or between two.

use crate::IdlCause;

/// The types that are spelled by one word, or by two or three.
#[derive(Clone, Copy, Debug, PartialEq, Eq)]
pub enum Basic {
    Boolean,
    Octet,
    Char,
    Short,
    UShort,
    Long,
    ULong,
    LongLong,
    ULongLong,
}

/// The rules that are in brackets.
#[derive(Clone, Copy, Debug, PartialEq, Eq)]
pub enum Inner {
    ModuleBody,
    InterfaceBody,
    StructBody,
    ExceptionBody,
    UnionType,
    UnionBody,
    EnumBody,
    Parameters,
    Raised,
    Element,
    TextBound,
    ArrayLength,
}

/// What is done.
#[derive(Clone, Copy, Debug, PartialEq, Eq)]
pub enum IdlLabel {
    /// Nothing.
    Skip,
    /// The token is refused with this cause, whatever is after it.
    Refuse(IdlCause),
    /// A module of this name opens, anew or again.
    Module,
    EndModule,
    /// An interface of this name begins.
    Interface,
    /// The name after the colon is a base.
    Base,
    /// The bases are whole, and what they give is counted.
    Inherit,
    OpenInterface,
    EndInterface,
    /// A scoped name begins at the file's scope.
    Rooted,
    /// A part of a scoped name.
    NamePart,
    /// The name is to be a type, or a value.
    UseType,
    UseConst,
    /// A type of words.
    Basic(Basic),
    /// A string without a bound.
    AnyText,
    /// The value is a bound.
    Bound,
    /// The string has the bound.
    BoundedText,
    /// The newest type becomes the element of a sequence.
    Sequence,
    /// A name is declared, whose declaration goes on.
    Declare,
    /// The same, with a scope of its own.
    Open,
    /// The value is an array's length.
    Length,
    /// A declarator has ended: of a typedef, a member, or a case.
    Typedef,
    Member,
    CaseMember,
    EndStruct,
    EndException,
    /// The type is a union's discriminator.
    Switch,
    /// The value is a label of the case.
    CaseLabel,
    DefaultLabel,
    EndUnion,
    Enumerator,
    EndEnum,
    /// The type is a constant's, and the value is the constant.
    ConstType,
    EndConst,
    ReadOnly,
    /// An attribute of this name.
    Attribute,
    EndAttribute,
    OneWay,
    /// The result of a oneway is a name, which goes on after its first part, or is whole.
    LongResultName,
    ResultName,
    /// The type is the operation's result.
    Result,
    In,
    Out,
    InOut,
    /// A parameter of this name.
    Param,
    Raises,
    /// The name is an exception that the operation raises.
    Raised,
    EndOperation,
    /// A value begins with a sign.
    Sign,
    /// A number without a sign, or after one.
    Number,
    Plus,
    Minus,
    Character,
    Text,
    Truth(bool),
}
