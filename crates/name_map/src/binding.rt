//! What a name is bound to.

use orb_base::{Arc, Text};

/// A key with the text that is kept under it.
#[derive(Debug, Drop)]
pub struct Binding {
    pub key: Arc<Text>,
    pub target: Arc<Text>,
}
