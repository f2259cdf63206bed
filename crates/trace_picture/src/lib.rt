//! A run that a trace says, as a picture: which thread carried out which request, what waited, and what became of it, by the numbers of
//! the entries; and the same in numbers, as a table of the lanes.
#![tactic(auto)]

mod drawing;
mod going;
mod ground;
mod layout;
mod lines;
mod marks;
mod pictures;
mod scene;
mod shape;
mod tables;
mod view;

pub use drawing::shapes_of;
pub use pictures::picture;
pub use shape::{Shape, WaitEnd};
pub use tables::table;
pub use view::{MAX_DRAWN, View};
