//! Parameters of operations.

use crate::way::Way;
use cdr_values::IdlType;
use orb_base::Text;

/// A parameter of an operation.
#[derive(Drop)]
pub struct Param {
    pub way: Way,
    pub name: Text,
    pub kind: IdlType,
}
