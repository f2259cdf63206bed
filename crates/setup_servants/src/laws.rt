//! Laws of the servants of setups, each the contract of a call that does nothing.
ghost use Rattle.setup_servants.specs.Laws.{BuiltInIsServed, BuiltInHasServants};

/// The built-in setup's servants serve `Orb::Ping` by its own servant.
pub fn built_in_setup_is_served()
    ensures { BuiltInIsServed }
{}

/// The built-in setup has servants, unless memory is wanting.
pub fn built_in_setup_has_servants()
    ensures { BuiltInHasServants }
{}
