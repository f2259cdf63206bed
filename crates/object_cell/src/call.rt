//! The calls of an object and their replies.

use orb_base::{Arc, Job, Outcome};

/// A call of an object whose values are of this type. Callers are named by the numbers of their seats.
#[derive(Debug, Drop)]
pub enum ObjectCall<V> {
    /// A caller takes hold of the value. It waits while another holds it.
    Begin {
        by: u32,
    },
    /// The caller that holds the value says what a job came to, and the value after it.
    Commit {
        by: u32,
        job: Arc<Job>,
        outcome: Outcome,
        value: Option<Arc<V>>,
    },
}

/// A reply of an object whose values are of this type.
#[derive(Debug, Drop)]
pub enum ObjectReply<V> {
    /// The value now, where the object keeps one.
    Value(Option<Arc<V>>),
    /// The value is kept, and nobody holds it.
    Stored,
}
