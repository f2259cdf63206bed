//! The objects that requests are for.

use orb_base::{List, Octets, Tagged, Text};

/// The object that a request is for: CORBA 3.0.3, section 15.4.2.1.
#[derive(Debug, Drop)]
pub enum Target {
    /// By the key of the object's adapter.
    Key(Octets),
    /// By a profile of its reference.
    Profile(Tagged),
    /// By its whole reference, of which one profile is meant.
    Addressing {
        /// Which of the profiles is meant, from 0.
        index: u32,
        /// The reference's repository id.
        type_id: Text,
        /// The reference's profiles.
        profiles: List<Tagged>,
    },
}
