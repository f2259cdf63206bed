//! The configuration of a broker, read from TOML.
//!
//! `specs/Schema.antt` describes the keys of each table, `specs/Tables.antt` what a table says, the files of relations what has
//! to hold between them, and `specs/Configuration.antt` when bytes are a configuration, and which fault is their first.
#![tactic(auto)]

mod adapter;
mod adapter_spec;
mod band;
mod band_relations;
mod built_in;
mod clashes;
mod document;
mod inbound;
mod index;
mod lane;
mod laws;
mod making;
mod map;
mod map_relations;
mod name_relations;
mod object;
mod object_spec;
mod pool;
mod pool_relations;
mod priorities;
mod priority_relations;
mod publishing;
mod reading;
mod refusals;
mod relations;
mod row;
mod server;
mod setup;
mod transform_relations;

pub use adapter_spec::AdapterSpec;
pub use config_tables::{ConfigCause, ConfigFault, SetupError};
pub use laws::{
    configured_bands_are_apart, configured_keys_differ, documents_without_a_fault_hold_together,
};
pub use object_spec::ObjectSpec;
pub use reading::read_setup;
pub use setup::{NAMES_PER_SLOT, NAMES_SLOTS, Setup};
