//! What a request comes to before the map is asked.

use name_map::NamesCall;
use orb_base::Outcome;

/// What a request means to a name service.
#[derive(Debug, Drop)]
pub enum Meaning {
    /// A call of the map, whose reply is the answer.
    Asks(NamesCall),
    /// An answer that doesn't need the map.
    Tells(Outcome),
}
