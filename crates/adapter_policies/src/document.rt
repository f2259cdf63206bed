//! The whole document.
ghost use Rattle.std.specs.Prelude.{◌≡◌, ◌≤◌, [], IfOk, IfErr, codes, length, map, option_map};
ghost use Rattle.toml.specs.Data.{get_member, table};
ghost use Rattle.toml.specs.View.{table_view, items_view};
ghost use Rattle.config_tables.specs.Fault.{Judged, Tells};
ghost use Rattle.config_tables.specs.Held.{text_of, where_there};
ghost use Rattle.config_tables.specs.Judging.{section_fault, table_fault, key_fault, entries_fault};
ghost use Rattle.config_tables.specs.Rules.{along_with, key_of, one};
ghost use Rattle.config_tables.specs.Values.{tables_in};
ghost use Rattle.adapter_policies.specs.Schema.{any_text, map_rules, server_rules, adapter_rules, object_rules};
ghost use Rattle.adapter_policies.specs.Tables.{map_of, server_of, adapter_of, object_of};
ghost use Rattle.adapter_policies.specs.Document.{IsDocument, IsNotToml, document_fault, document_of, section_in};

use crate::adapter::AdapterTable;
use crate::map::{MapTable, read_map};
use crate::object::ObjectTable;
use crate::pool::{PoolTable, read_pool};
use crate::server::{ServerTable, read_server};
use config_tables::{
    ConfigCause, ConfigFault, SetupError, due_list, due_table, free_table, known_keys,
    read_entries, stands, text_along,
};
use orb_base::Text;
use std::alloc::Global;
use std::marker::Model;
use toml::{Table, Value};

/// A configuration, as its tables say it: the relations between them aren't judged yet, and no default is put in.
#[derive(Drop)]
pub struct Document {
    pub idl: Option<Text>,
    pub scripts: Option<Text>,
    pub mapping: Option<MapTable>,
    pub pool: PoolTable,
    pub server: Option<ServerTable>,
    pub adapters: Vec<AdapterTable>,
    pub objects: Vec<ObjectTable>,
}

impl Model for Document {
    ghost use Rattle.std.specs.Prelude.{◌≤◌, length};
    ghost use Rattle.adapter_policies.specs.Document.{DocumentSaid};

    ghost Value = { DocumentSaid };

    ghost view = { λ d. record {
      idl = d.idl;
      scripts = d.scripts;
      mapping = d.mapping;
      pool = d.pool;
      server = d.server;
      adapters = d.adapters.items;
      objects = d.objects.items;
    } };

    ghost invariant = { λ d. (length d.adapters.items ≤ 64) × (length d.objects.items ≤ 1024) };
}

/// What the tables of a document say. One pass over the document.
#[tactic(auto, unfolding(crate::specs::Document::document_fault), using(config_tables::proofs::Judging::refuses_first, config_tables::proofs::Judging::refuses_later))]
pub fn read_tables(alloc: Global, document: &Table) -> Result<Document, SetupError>
    ensures judged { Judged result (document_fault (table_view document.now)) }
    ensures value { IfOk result (λ d. d ≡ document_of (table_view document.now)) }
{
    known_keys(
        alloc,
        "",
        document,
        &[
            "idl", "scripts", "map", "pool", "server", "adapter", "object",
        ],
    )?;
    let idl = file_name(alloc, document, "idl", "scripts")?;
    let scripts = file_name(alloc, document, "scripts", "idl")?;
    let mapping = free_table(alloc, "", document, "map")?;
    let pool = due_table(alloc, "", document, "pool")?;
    let server = free_table(alloc, "", document, "server")?;
    let adapters = due_list(alloc, "", document, "adapter", 1, 64)?;
    let objects = due_list(alloc, "", document, "object", 1, 1024)?;
    let mapping = read_map_section(alloc, mapping)?;
    let pool = read_pool(alloc, "pool", pool)?;
    let server = read_server_section(alloc, server)?;
    let adapters = read_adapters(alloc, adapters.as_slice())?;
    let objects = read_objects(alloc, objects.as_slice())?;
    Ok(Document {
        idl,
        scripts,
        mapping,
        pool,
        server,
        adapters,
        objects,
    })
}

/// The name of a file, which is due where the key of another file is.
fn file_name(
    alloc: Global,
    document: &Table,
    key: &str,
    other: &str,
) -> Result<Option<Text>, SetupError>
    ensures judged { Judged result (key_fault (key_of key.now (along_with other.now) (one any_text)) [] (table_view document.now)) }
    ensures value { IfOk result (λ name. name ≡ where_there text_of (get_member key.now (table_view document.now))) }
{
    let beside = stands(document, other);
    text_along(alloc, "", document, key, (0, usize::MAX), beside)
}

/// The map of a document, if it has one.
fn read_map_section(alloc: Global, found: Option<&Table>) -> Result<Option<MapTable>, SetupError>
    ensures judged { Judged result (section_fault map_rules (codes "map")
        (option_map (λ t. table (table_view t.now)) found.entry)) }
    ensures value { IfOk result (λ m. m
        ≡ option_map map_of (section_in (option_map (λ t. table (table_view t.now)) found.entry))) }
{
    match found {
        Some(section) => match read_map(alloc, "map", section) {
            Ok(mapping) => Ok(Some(mapping)),
            Err(e) => Err(e),
        },
        None => Ok(None),
    }
}

/// The limits of a document, if it has a table of them.
fn read_server_section(
    alloc: Global,
    found: Option<&Table>,
) -> Result<Option<ServerTable>, SetupError>
    ensures judged { Judged result (section_fault server_rules (codes "server")
        (option_map (λ t. table (table_view t.now)) found.entry)) }
    ensures value { IfOk result (λ server. server
        ≡ option_map server_of (section_in (option_map (λ t. table (table_view t.now)) found.entry))) }
{
    match found {
        Some(section) => match read_server(alloc, "server", section) {
            Ok(server) => Ok(Some(server)),
            Err(e) => Err(e),
        },
        None => Ok(None),
    }
}

/// The adapters of a list.
fn read_adapters(alloc: Global, list: &[Value]) -> Result<Vec<AdapterTable>, SetupError>
    ensures judged { Judged result (entries_fault (table_fault key_fault adapter_rules) (codes "adapter") 0
        (tables_in (items_view list.now))) }
    ensures value { IfOk result (λ adapters. adapters.items
        ≡ map adapter_of (tables_in (items_view list.now))) }
    ensures few { IfOk result (λ adapters. length adapters.items ≤ length list.now) }
{
    read_entries(alloc, "adapter", list)
}

/// The objects of a list.
fn read_objects(alloc: Global, list: &[Value]) -> Result<Vec<ObjectTable>, SetupError>
    ensures judged { Judged result (entries_fault (table_fault key_fault object_rules) (codes "object") 0
        (tables_in (items_view list.now))) }
    ensures value { IfOk result (λ objects. objects.items ≡ map object_of (tables_in (items_view list.now))) }
    ensures few { IfOk result (λ objects. length objects.items ≤ length list.now) }
{
    read_entries(alloc, "object", list)
}

/// The document that the bytes are.
pub fn read_document(alloc: Global, bytes: &[u8]) -> Result<Table, SetupError>
    ensures read { IfOk result (λ document. IsDocument bytes.now (table_view document)) }
    ensures refused { IfErr result (λ e. Tells e (IsNotToml bytes.now)) }
{
    match toml::table_from_slice(alloc, bytes) {
        Ok(document) => Ok(document),
        Err(e) => {
            if e.is_memory() {
                return Err(SetupError::NoMemory);
            }
            match Text::new(alloc, "".as_bytes()) {
                Ok(path) => Err(SetupError::Refused(ConfigFault {
                    cause: ConfigCause::NotToml,
                    path,
                })),
                Err(_) => Err(SetupError::NoMemory),
            }
        }
    }
}
