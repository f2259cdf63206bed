//! The rows of a table map.

use orb_base::Band;

/// A band of CORBA priorities, all of which have one native priority.
#[derive(Clone, Copy, Debug, PartialEq, Eq)]
pub struct MapRow {
    pub band: Band,
    pub native: i32,
}
