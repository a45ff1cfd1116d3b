//! Rays and straight lines over the cells of a grid.
#![tactic(auto)]

mod along;
mod rays;
mod sight;
mod straight;
mod ways;

pub use along::{alike_along, first_along, has_run};
pub use rays::{RayIter, ray};
pub use sight::{field_of_view, sees};
pub use straight::{SegmentIter, segment};
