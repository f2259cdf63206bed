//! What serves the links of a slot.

/// A link that came to a slot, with the place to serve it by.
#[derive(Drop)]
pub struct LinkJob<P, I, O> {
    /// Its number in the slot, from 0.
    pub nth: u8,
    pub place: P,
    pub source: I,
    pub sink: O,
}

/// What serving a link leaves.
#[derive(Drop)]
pub struct LinkDone<P, L> {
    pub place: P,
    /// What is kept of the link.
    pub log: L,
    /// Whether the slot serves no link after this one.
    pub closes: bool,
}

/// What serves links, one after another by the same place: a closure from a link that came to what it leaves. What is known of
/// each link is the closure's own contract. It is a closure and no trait, since a thread that a trait's method starts can't be
/// given a value of a type parameter.
#[derive(Drop)]
pub struct LinkHost<F> {
    /// How many links a slot may serve.
    pub most: u8,
    pub serve: F,
}
