//! The files and the net of the system, as the traits of what is outside have them; own profile where no standard is named.
//!
//! A run's door is shared by all slots of a listener: while a run of a server closes, no slot takes another link in it.
#![tactic(auto)]

mod door_sink;
mod run_door;
mod std_files;
mod std_links;
mod std_net;
mod turned_away;

pub use door_sink::DoorSink;
pub use run_door::RunDoor;
pub use std_files::StdFiles;
pub use std_links::{LinkSink, LinkSource, StdAcceptor};
pub use std_net::StdNet;
pub use turned_away::end_listening;
