//! Commands carried through symmetries, and grids whose symmetries are deferred.
//!
//! - [`carry`] a command on the image of a grid to the grid itself, and [`carry_reply`] its reply back
//! - a grid with a symmetry that isn't applied yet: [`Deferred`]; a list of commands on one: [`run_deferred`]
#![tactic(auto)]

mod carrying;
mod deferred;
pub mod laws;
mod run;

pub use carrying::{carry, carry_reply};
pub use deferred::{Deferred, DeferredLineIter};
pub use run::run_deferred;
