//! Service contexts that carry priorities, the values of two policies, and the component that carries policies, read and
//! written (Real-time CORBA 1.2, CORBA priorities, Priority models and Priority banded connections).
//!
//! Each is an encapsulation of a few fields. What bytes carry is in `specs/Carrying.antt`, and which of a message's
//! contexts count in `specs/Telling.antt`.
#![tactic(auto)]

mod bands;
mod content;
mod contexts;
pub mod laws;
mod model;
mod policies;
mod publishing;
mod read;
mod short;

pub use bands::{bands_policy, read_bands_policy};
pub use content::{priority_context, range_context};
pub use contexts::{
    ContextFault, Contexts, PRIORITY_CONTEXT, RANGE_CONTEXT, contexts_at, contexts_of,
};
pub use model::{model_policy, read_model_policy};
pub use policies::{
    BANDS_POLICY, MODEL_POLICY, POLICIES_TAG, policies_component, read_policies_component,
};
pub use publishing::{published_bands, published_model};
