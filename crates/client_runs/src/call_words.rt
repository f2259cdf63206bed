//! The options of a call.

use crate::argument_text::ArgumentText;
use orb_base::{Priority, Text};

/// The options of a call of the command line.
#[derive(Drop)]
pub struct CallWords {
    /// The text of the reference.
    pub reference: Text,
    /// The name of the operation; an attribute `a` has the operations `_get_a` and `_set_a`.
    pub operation: Text,
    /// The arguments, a JSON array of the values of the `in` and `inout` parameters; without the option it is `[]`.
    pub arguments: Option<ArgumentText>,
    /// The caller's priority, where it gives one.
    pub priority: Option<Priority>,
    /// The name of a file of IDL, where there is one.
    pub idl: Option<Text>,
    /// The id of the interface; without the option it is that of the reference's type.
    pub interface: Option<Text>,
}
