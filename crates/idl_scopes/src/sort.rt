//! What a scope needs to know of a declaration.
ghost use Rattle.std.specs.Prelude.{◌≡◌};
ghost use Rattle.idl_scopes.specs.Finding.{is_finished, is_module, is_operation};
ghost use Rattle.idl_scopes.specs.Declarations.{sort_of};

use crate::Inherited;

/// What was declared, as far as looking up needs it.
#[derive(Drop)]
pub enum Sort {
    /// Its end hasn't been read: the name is taken, and it isn't found.
    Unfinished,
    /// A module, which may be opened again.
    Module,
    /// An interface, with all scopes whose names it inherits, in the order of looking up.
    Interface(Inherited),
    /// An operation or an attribute.
    Operation,
    /// Anything else.
    Other,
}

impl Sort {
    /// Whether its end has been read, or it is found before.
    pub(crate) fn is_finished(&self) -> bool
        ensures { result ≡ is_finished (sort_of self.now) }
    {
        match self {
            Sort::Unfinished => false,
            _ => true,
        }
    }

    /// Whether it is a module.
    pub(crate) fn is_module(&self) -> bool
        ensures { result ≡ is_module (sort_of self.now) }
    {
        match self {
            Sort::Module => true,
            _ => false,
        }
    }

    /// Whether it is an operation or an attribute.
    pub(crate) fn is_operation(&self) -> bool
        ensures { result ≡ is_operation (sort_of self.now) }
    {
        match self {
            Sort::Operation => true,
            _ => false,
        }
    }
}
