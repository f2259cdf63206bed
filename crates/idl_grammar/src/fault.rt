//! Why a text is no IDL.

use thiserror::Error;

/// What is wrong at a token: own profile. Where several are wrong at one token, the first of these counts.
#[derive(Clone, Copy, Debug, PartialEq, Eq, Error)]
pub enum IdlCause {
    /// A byte begins no token, or a comment, text or character isn't closed.
    #[error("BadToken")]
    BadToken,
    /// IDL has it, and this profile hasn't.
    #[error("NotInProfile")]
    NotInProfile,
    /// The grammar has no such token here, or 64 brackets are open and another one opens.
    #[error("Expected")]
    Expected,
    /// A name that isn't declared before.
    #[error("Unknown")]
    Unknown,
    /// A declared name that is taken, or a base that gives another thing of a name than an earlier one.
    #[error("Clash")]
    Clash,
    /// A name or value of the wrong kind.
    #[error("WrongKind")]
    WrongKind,
    /// A literal above 64 bits, a value outside its type, a bound or length outside 1 to 65,536.
    #[error("OutOfRange")]
    OutOfRange,
    /// A oneway with a result, an out parameter or raises.
    #[error("BadOneway")]
    BadOneway,
    /// A label of a union that is there twice.
    #[error("TwiceCase")]
    TwiceCase,
    /// A type of more than 65,536 leaves or 64 levels, or a file of more than 1,048,576 leaves.
    #[error("TooLarge")]
    TooLarge,
}

/// What is wrong with a text, and where: the first token at fault.
#[derive(Clone, Copy, Debug, PartialEq, Eq, Error)]
#[error("{line}:{column}: {cause}")]
pub struct IdlFault {
    pub cause: IdlCause,
    /// The line of the token's first byte, from 1.
    pub line: u32,
    /// The column of the token's first byte, counted in bytes from 1.
    pub column: u32,
}
