//! Why a setup has no servants.

use config_tables::ConfigFault;
use idl_grammar::IdlFault;
use script_checks::CheckFault;
use servant_scripts::ScriptFault;

/// A text that a setup may name a file for.
#[derive(Clone, Copy, Debug, PartialEq, Eq)]
pub enum TextRole {
    /// The text of interfaces.
    Idl,
    /// The text of scripts.
    Scripts,
}

/// Why a setup has no servants. The text of interfaces is read first, then that of scripts; the scripts are checked, and last the
/// objects are judged. The first fault in this order is given.
#[derive(Debug, Drop)]
pub enum ServingFault {
    /// The text of interfaces has this first fault.
    Idl(IdlFault),
    /// The text of scripts isn't of the grammar, from this token on.
    Script(ScriptFault),
    /// The scripts have this first fault over the interfaces.
    Check(CheckFault),
    /// No servant serves this first object.
    Object(ConfigFault),
    /// There is no file of the name that the setup has for this text.
    Absent(TextRole),
    /// The file of this text is longer than 1,048,576 bytes.
    TooLong(TextRole),
    /// The store of files failed.
    ReadFault,
    /// Memory was wanting.
    NoMemory,
}
