//! What a command takes.

/// How an item is given.
#[derive(Clone, Copy, Debug, PartialEq, Eq)]
pub enum Kind {
    /// An option with a value: `--name value` or `--name=value`. A value in the first form begins with no dash.
    Valued,
    /// An option without a value: `--name`.
    Switch,
    /// The plain word of this number, from 1 to 99.
    Positional(u8),
}

/// One item of what a command takes.
#[derive(Clone, Copy, Debug)]
pub struct Item<'a> {
    /// The name, without dashes.
    pub name: &'a str,
    pub kind: Kind,
    /// Whether the words have to give it.
    pub is_due: bool,
}
