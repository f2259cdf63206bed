//! Keys that hold CORBA priorities.
ghost use Rattle.std.specs.Prelude.{◌≡◌, ◌<◌, ◌^◌, IfOk};
ghost use Rattle.toml.specs.Data.{get_member};
ghost use Rattle.toml.specs.View.{table_view};
ghost use Rattle.config_tables.specs.Fault.{Judged};
ghost use Rattle.config_tables.specs.Held.{number_at, number_of, where_there};
ghost use Rattle.config_tables.specs.Path.{key_path};
ghost use Rattle.config_tables.specs.Standing.{is_due, is_free, due_exactly};
ghost use Rattle.config_tables.specs.Values.{fault_at, key_cause, scalar_cause};
ghost use Rattle.adapter_policies.specs.Schema.{priority};

use config_tables::{SetupError, due_number, free_number, number_where};
use orb_base::Priority;
use std::alloc::Global;
use toml::Table;

/// The priority of a number.
fn at_level(level: u32) -> Priority
    requires { level < 2 ^ 15 }
    ensures { result ≡ level }
{
    Priority::new(level as i16).unwrap()
}

/// A priority that has to be there.
pub fn due_priority(
    alloc: Global,
    path: &str,
    table: &Table,
    key: &str,
) -> Result<Priority, SetupError>
    ensures judged { Judged result (fault_at (key_path path.now key.now)
        (key_cause (scalar_cause priority) is_due (get_member key.now (table_view table.now)))) }
    ensures value { IfOk result (λ p. p ≡ number_at key.now (table_view table.now)) }
{
    Ok(at_level(due_number(alloc, path, table, key, 0, 32767)?))
}

/// A priority that has to be there exactly where something holds. It is 0 where it isn't there.
pub fn priority_where(
    alloc: Global,
    path: &str,
    table: &Table,
    key: &str,
    holds: bool,
) -> Result<Priority, SetupError>
    ensures judged { Judged result (fault_at (key_path path.now key.now)
        (key_cause (scalar_cause priority) (due_exactly holds) (get_member key.now (table_view table.now)))) }
    ensures value { IfOk result (λ p. p ≡ number_at key.now (table_view table.now)) }
{
    let level = number_where(alloc, path, table, key, (0, 32767), holds)?;
    Ok(at_level(level))
}

/// A priority that may be there.
pub fn free_priority(
    alloc: Global,
    path: &str,
    table: &Table,
    key: &str,
) -> Result<Option<Priority>, SetupError>
    ensures judged { Judged result (fault_at (key_path path.now key.now)
        (key_cause (scalar_cause priority) is_free (get_member key.now (table_view table.now)))) }
    ensures value { IfOk result (λ p. p ≡ where_there number_of (get_member key.now (table_view table.now))) }
{
    match free_number(alloc, path, table, key, 0, 32767)? {
        Some(level) => Ok(Some(at_level(level))),
        None => Ok(None),
    }
}
