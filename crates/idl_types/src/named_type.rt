//! Types that have a name.

use cdr_values::IdlType;
use orb_base::Text;

/// A type and its id: a struct, a union, an enum, or what a typedef names (CORBA 3.0.3, section 3.11).
#[derive(Drop)]
pub struct NamedType {
    pub id: Text,
    pub kind: IdlType,
}
