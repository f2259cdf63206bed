//! The words after a command's name, read by what the command takes. What it takes is data, a list of items, and the reading of
//! words by such a list is a definition (`specs/Uses.antt`). The kit's `clap` reads the words, and each call that reads words is
//! proved to answer that reading: it takes exactly the words that have one, and gives the values that the reading gives. Only
//! running out of memory can keep a call from its answer.
#![tactic(auto)]

mod commands;
mod item;
mod laws;
mod library;
mod nul;
mod numbers;
mod options;

pub use commands::{
    read_audit, read_call, read_dump, read_idl, read_load, read_names, read_pipe, read_refs,
    read_serve,
};
pub use item::{Item, Kind};
pub use laws::{commands_are_read_as_written, order_is_free, second_use_is_refused};
pub use nul::has_nul;
pub use numbers::{MAX_DIGITS, number_of};
pub use options::{Options, read_options};
