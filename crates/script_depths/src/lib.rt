//! Laws of what a script says: no text of the grammar meets an empty stack.
//!
//! What a script says is what is built along its marks, on stacks. There a stack that is empty gives something blank. For
//! each sentence of the grammar the blanks do not matter: each mark finds what it takes. The functions have empty bodies:
//! each contract is a law of the definitions.
#![tactic(auto)]

mod laws;

pub use laws::{labels_take_no_more, no_script_meets_an_empty_stack};
