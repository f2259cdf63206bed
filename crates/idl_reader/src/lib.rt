//! The repository of a text of IDL: what the text declares, or its first token at fault.
//!
//! The text is read into names first (`idl_names`). Each name that stands for a type, an exception, a constant or an
//! interface is then declared under its repository id, in the order of the names; an interface gets copies of all its
//! operations.
#![tactic(auto)]

mod copies;
mod declaring;
mod interfaces;
mod laws;
mod reader;

pub use laws::{
    repositories_take_texts, texts_give_apart_names, texts_give_apart_operations,
    texts_give_apart_params, texts_give_earlier_bases, texts_give_lawful_types, texts_give_new_ids,
    texts_give_small_types, texts_inherit_first, texts_leave_room,
};
pub use reader::read_idl;
