//! Why a configuration is refused.

use orb_base::Text;
use thiserror::Error;

/// What is wrong with a configuration: own profile. The causes are judged in this order, those up to OutOfRange table by
/// table and key by key.
#[derive(Clone, Copy, Debug, PartialEq, Eq, Error)]
pub enum ConfigCause {
    /// The bytes are no TOML text. It has the empty path.
    #[error("NotToml")]
    NotToml,
    /// A table has a key that it may not have.
    #[error("UnknownKey")]
    UnknownKey,
    /// A key that is due isn't there.
    #[error("Missing")]
    Missing,
    /// A key holds a value of another kind, or is excluded by another key.
    #[error("WrongKind")]
    WrongKind,
    /// A number, a text's length, a word or a count isn't one that is allowed.
    #[error("OutOfRange")]
    OutOfRange,
    /// A lane's priority isn't above that of the lane before it.
    #[error("LaneOrder")]
    LaneOrder,
    /// A lane, or a pool without lanes, has no thread.
    #[error("NoThread")]
    NoThread,
    /// The pool has more threads than it may have.
    #[error("TooManyThreads")]
    TooManyThreads,
    /// The slots have more connections than there may be.
    #[error("SlotLimit")]
    SlotLimit,
    /// A pool without lanes lends threads.
    #[error("BorrowWithoutLanes")]
    BorrowWithoutLanes,
    /// The map's ends are reversed, or its rows don't rise.
    #[error("BadMap")]
    BadMap,
    /// The low end of a band, or of a row of a transform, is above its high one.
    #[error("BandEmpty")]
    BandEmpty,
    /// A band, or a row of a transform, shares a priority with an earlier one of its adapter.
    #[error("BandOverlap")]
    BandOverlap,
    /// An adapter's name or an object's key is there twice.
    #[error("Duplicate")]
    Duplicate,
    /// An object names an adapter that isn't there.
    #[error("UnknownAdapter")]
    UnknownAdapter,
    /// An object under CLIENT_PROPAGATED has a priority of its own.
    #[error("PriorityNotAllowed")]
    PriorityNotAllowed,
    /// A priority, or the one that a row of a transform gives, is that of no lane.
    #[error("PriorityNotALane")]
    PriorityNotALane,
    /// The map has no native priority for a priority.
    #[error("NoNative")]
    NoNative,
    /// No lane's priority lies in a band.
    #[error("BandWithoutLane")]
    BandWithoutLane,
    /// An adapter under SERVER_DECLARED has a transform.
    #[error("TransformNotAllowed")]
    TransformNotAllowed,
    /// No servant serves an object's interface.
    #[error("UnknownInterface")]
    UnknownInterface,
}

/// The first fault of a configuration, and the path of the key or entry at fault, like `pool.lanes[1].priority`.
#[derive(Debug, Drop, Error)]
#[error("{cause}")]
pub struct ConfigFault {
    pub cause: ConfigCause,
    pub path: Text,
}

/// Why there is no setup.
#[derive(Debug, Drop, Error)]
pub enum SetupError {
    /// The configuration has a fault.
    #[error("{0}")]
    Refused(ConfigFault),
    /// Memory was wanting.
    #[error("out of memory")]
    NoMemory,
}
