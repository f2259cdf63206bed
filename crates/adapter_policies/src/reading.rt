//! The reading of a configuration.
ghost use Rattle.std.specs.Prelude.{◌≡◌, IfOk, IfErr};
ghost use Rattle.toml.specs.View.{table_view};
ghost use Rattle.config_tables.specs.Fault.{Judged, Tells};
ghost use Rattle.adapter_policies.specs.Configuration.{Configures, HasFault, first_fault};
ghost use Rattle.adapter_policies.specs.Document.{document_of};
ghost use Rattle.adapter_policies.specs.SetupData.{setup_of};

use crate::document::{read_document, read_tables};
use crate::relations::judge_relations;
use crate::setup::{Setup, setup_made};
use config_tables::SetupError;
use std::alloc::Global;
use toml::Table;

/// Reads the configuration of a broker: TOML, in which the keys of each table, their order, ranges and defaults are own profile.
/// Refuses with the first fault: NotToml at the empty path; then table by table an unknown key, the least by its bytes, and key by
/// key what is missing, of the wrong kind or out of range; then what has to hold between the tables, in the order of the causes.
/// The work is one pass over the text and the square of the numbers of adapters and objects.
pub fn read_setup(alloc: Global, bytes: &[u8]) -> Result<Setup, SetupError>
    // The setup of the configuration that the bytes are.
    ensures read { IfOk result (λ setup. Configures bytes.now setup) }
    // A fault that is given is the first one.
    ensures refused { IfErr result (λ e. Tells e (HasFault bytes.now)) }
{
    let document = read_document(alloc, bytes)?;
    read_whole(alloc, &document)
}

/// The setup of a document.
#[tactic(auto, using(config_tables::proofs::Judging::refuses_first, config_tables::proofs::Judging::refuses_later))]
fn read_whole(alloc: Global, document: &Table) -> Result<Setup, SetupError>
    ensures judged { Judged result (first_fault (table_view document.now)) }
    ensures value { IfOk result (λ s. s ≡ setup_of (document_of (table_view document.now))) }
{
    let tables = read_tables(alloc, document)?;
    let map = judge_relations(alloc, &tables)?;
    match setup_made(alloc, tables, map) {
        Ok(setup) => Ok(setup),
        Err(_) => Err(SetupError::NoMemory),
    }
}
