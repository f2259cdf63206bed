//! Laws of a name service beside servants. The bodies are empty: each contract is a law of the definitions.
ghost use Rattle.names_laws.specs.Alike.{UnknownAlike, UnreadAlike, KinAlike, ThereAlike, OwnAlike};
ghost use Rattle.names_laws.specs.Serving.{NamesAreServed};

/// Whatever a file declares and whatever a script does, the interface of a name service that was added to the file's
/// things is served where the servants have one for its place.
pub fn names_are_served()
    ensures { NamesAreServed }
{}

/// A name service answers BAD_OPERATION and MARSHAL exactly where a servant of its interface does, whatever the
/// servant's script is, and it answers `_is_a` and `_non_existent` as such a servant does. Of all that it answers
/// without its map only IMP_LIMIT is its own.
pub fn names_answer_as_servants()
    ensures unknown { UnknownAlike }
    ensures unread { UnreadAlike }
    ensures kin { KinAlike }
    ensures there { ThereAlike }
    ensures own { OwnAlike }
{}
