//! The priority that a request runs at and the lane that takes it (Real-time CORBA 1.2, Priority models, Priority transforms,
//! Priority banded connections and Threadpools).
//!
//! Both are decided before a request is offered to the lanes. No call takes memory.
#![tactic(auto)]

mod laws;
mod misplaced;
mod model;
mod placing;
mod transform;

pub use laws::{requests_are_placed_one_way, transforms_map_by_bands};
pub use misplaced::Misplaced;
pub use model::mandated;
pub use placing::placed;
pub use transform::{Transform, TransformRow};
