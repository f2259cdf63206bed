//! What is asked of a remote object.

use crate::remote::Remote;
use cdr_values::IdlValue;
use idl_types::Operation;
use orb_base::{Band, List, Priority};

/// A call of an operation of a remote object.
#[derive(Drop)]
pub struct Asked<'a> {
    pub remote: &'a Remote,
    pub operation: &'a Operation,
    /// The values of the `in` and `inout` parameters, in order.
    pub arguments: &'a List<IdlValue>,
    /// The caller's priority, where it gives one.
    pub priority: Option<Priority>,
    /// The band that is bound before the call, if one is.
    pub band: Option<Band>,
}
