//! The names of a text of IDL, built as its tokens come: what each label of the grammar does to them.
//!
//! `specs/` has all of it, as one definition of a few lines a label, up to what a whole text declares or its first token
//! at fault; the program has a function of the same name for each, which does just that, and `read_names` reads a whole
//! text by them.
#![tactic(auto)]

mod bodies;
mod changes;
mod each;
mod inheritance;
mod interfaces;
mod labels;
mod operations;
mod parts;
mod reader;
mod scoped_names;
mod sizes;
mod state;
mod texts;
mod values;

pub use reader::read_names;
pub use sizes::{
    SizedType, array_of, arrays_of, basic_type, copy_sized, is_large_array, leaf, plus,
    sequence_of, times,
};
pub use state::{Names, Thing};
