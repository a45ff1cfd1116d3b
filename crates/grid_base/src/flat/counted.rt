//! Passes over the cells by counted swaps.
mod flips;
mod shifts;
mod swaps;

pub(super) use shifts::{move_back, move_forward};
pub(crate) use swaps::Swaps;
