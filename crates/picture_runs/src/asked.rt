//! What is asked for.

use trace_picture::View;

/// What is asked for of an input of traces.
#[derive(Clone, Copy, Debug, PartialEq, Eq)]
pub enum Asked {
    /// A picture.
    Picture(View),
    /// The table of the lanes of the run of this number.
    Table(u32),
}
