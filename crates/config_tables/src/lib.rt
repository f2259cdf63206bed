//! The tables of a configuration: what may be wrong with them and where, the words in which their keys are described, and
//! readers of one key or one list each. The configuration is TOML, which the kit's `toml` reads.
//!
//! A description of a table is data (`specs/Rules.antt`), and one reading judges every table by it
//! (`specs/Judging.antt`). A reader judges its key as the description says, and gives what the key holds.
#![tactic(auto)]

mod entries;
mod fault;
mod laws;
mod lists;
mod members;
mod numbers;
mod paths;
mod scalars;
mod texts;

pub use entries::{Entry, entries_where, free_entries, read_entries, read_list};
pub use fault::{ConfigCause, ConfigFault, SetupError};
pub use laws::{
    keys_without_a_fault_are_known, tables_without_a_fault_meet_their_rules,
    the_least_unknown_key_is_told,
};
pub use lists::{due_list, due_table, free_list, free_table, list_where};
pub use members::{excluded, known_keys, member, stands};
pub use numbers::{due_native, due_number, free_number, free_truth, native_where, number_where};
pub use paths::{entry_path, key_path, refuse_at, refuse_key};
pub use texts::{due_text, due_word, free_text, text_along};
