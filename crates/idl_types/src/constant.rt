//! Constants.

use cdr_values::{IdlType, IdlValue};
use orb_base::Text;

/// A constant: CORBA 3.0.3, section 3.10.
#[derive(Drop)]
pub struct Constant {
    pub id: Text,
    pub kind: IdlType,
    pub value: IdlValue,
}
