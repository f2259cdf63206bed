//! The calls of the map and their replies.

use orb_base::{Arc, Text};

/// A call of the map. Each is ready at any time.
#[derive(Debug, Drop)]
pub enum NamesCall {
    /// Keeps a text under a new key.
    Bind { key: Arc<Text>, target: Arc<Text> },
    /// Keeps a text under a key, in the place of the one that is there.
    Rebind { key: Arc<Text>, target: Arc<Text> },
    /// Asks for the text under a key.
    Resolve { key: Arc<Text> },
    /// Takes a key out.
    Unbind { key: Arc<Text> },
    /// Asks for the least key above a text.
    Next { after: Arc<Text> },
    /// Asks how many keys there are.
    Size,
}

/// A reply of the map.
#[derive(Debug, Drop)]
pub enum NamesReply {
    /// The key was bound, or taken out.
    Stored,
    /// The text under the key.
    Target(Arc<Text>),
    /// The least key above the text.
    Key(Arc<Text>),
    /// How many keys there are.
    Count(u32),
    /// The key is there already. Nothing changed.
    AlreadyBound,
    /// There are as many keys as may be. Nothing changed.
    NoRoom,
    /// There is no such key. Nothing changed.
    NotFound,
}
