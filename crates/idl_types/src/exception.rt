//! Exceptions.

use cdr_values::Member;
use orb_base::{List, Text};

/// An exception: CORBA 3.0.3, section 3.12. It may have no member.
#[derive(Drop)]
pub struct Exception {
    pub id: Text,
    pub members: List<Member>,
}
