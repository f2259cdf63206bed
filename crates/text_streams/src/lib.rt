//! What the commands that read an input and write lines share: whole reads, whole writes, and octets shown as text.
#![tactic(auto)]

mod escapes;
mod reading;
mod writing;

pub use escapes::shown;
pub use reading::{ReadAll, read_all};
pub use writing::{WriteAll, write_all};
