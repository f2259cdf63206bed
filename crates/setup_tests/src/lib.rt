//! Tests of `priority_maps`, `priority_models`, `banded_links`, `config_tables`, `adapter_policies`, `setup_servants`, `setup_files`, `object_lines`.
#![tactic(auto)]

#[cfg(test)]
mod adapter_policies_tests;
#[cfg(test)]
mod banded_links_tests;
#[cfg(test)]
mod config_tables_tests;
#[cfg(test)]
mod object_lines_tests;
#[cfg(test)]
mod priority_maps_tests;
#[cfg(test)]
mod priority_models_tests;
#[cfg(test)]
mod setup_files_tests;
#[cfg(test)]
mod setup_servants_tests;
