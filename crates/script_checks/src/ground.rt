//! What the names of a method are looked up in.

use idl_types::Repository;
use script_names::Names;
use std::alloc::Global;

/// A repository with its names, and the id of the interface in whose scope they are looked up.
#[derive(Clone, Copy)]
pub struct Ground<'r> {
    pub repository: &'r Repository,
    pub names: &'r Names,
    pub interface: &'r [u8],
    pub alloc: Global,
}
