//! What a file declares.
ghost use Rattle.std.specs.Prelude.{◌≡◌, map};
ghost use Rattle.idl_types.specs.Things.{id_of, bases_of, operations_of};
ghost use Rattle.idl_types.specs.Views.{thing_of, operation_of};

use crate::constant::Constant;
use crate::exception::Exception;
use crate::interface::Interface;
use crate::named_type::NamedType;
use crate::operation::Operation;
use orb_base::Text;

/// One declared thing with its repository id. Modules are no declarations: they are in the ids.
#[derive(Drop)]
pub enum Declaration {
    Constant(Constant),
    Named(NamedType),
    Exception(Exception),
    Interface(Interface),
}

impl Declaration {
    /// The repository id.
    pub fn id(&self) -> &Text
        ensures { result.now ≡ id_of (thing_of self.now) }
    {
        match self {
            Declaration::Constant(constant) => &constant.id,
            Declaration::Named(named) => &named.id,
            Declaration::Exception(exception) => &exception.id,
            Declaration::Interface(interface) => &interface.id,
        }
    }

    /// The ids of the bases: only an interface has any.
    pub fn bases(&self) -> &[Text]
        ensures { result.now ≡ bases_of (thing_of self.now) }
    {
        match self {
            Declaration::Interface(interface) => interface.bases.as_slice(),
            _ => &[],
        }
    }

    /// The operations: only an interface has any.
    pub fn operations(&self) -> &[Operation]
        ensures { map operation_of result.now ≡ operations_of (thing_of self.now) }
    {
        match self {
            Declaration::Interface(interface) => interface.operations.as_slice(),
            _ => &[],
        }
    }
}
