//! Operations of interfaces.

use crate::param::Param;
use cdr_values::IdlType;
use orb_base::{List, Text};

/// An operation: CORBA 3.0.3, section 3.13. An attribute `a` is the operation `_get_a`, and after it `_set_a` where
/// it isn't readonly, whose one parameter is named `a`.
#[derive(Drop)]
pub struct Operation {
    pub name: Text,
    pub oneway: bool,
    /// None for `void`.
    pub result: Option<IdlType>,
    pub params: List<Param>,
    /// The ids of the exceptions, in order.
    pub raises: List<Text>,
}
