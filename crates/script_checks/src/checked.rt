//! Scripts without a fault, as they are run.

use script_values::Stmt;

/// A method.
#[derive(Drop)]
pub struct CheckedMethod {
    /// The index of its operation in the interface.
    pub operation: usize,
    /// How many `let` it has. A run needs as many slots after those of the parameters, which are in order.
    pub lets: usize,
    pub body: Vec<Stmt>,
}

/// A servant: it has one method for each operation of its interface, in the order of the text.
#[derive(Drop)]
pub struct CheckedServant {
    /// The place of its interface in the repository.
    pub interface: usize,
    pub methods: Vec<CheckedMethod>,
}

/// A whole script.
#[derive(Drop)]
pub struct CheckedScript {
    pub servants: Vec<CheckedServant>,
}
