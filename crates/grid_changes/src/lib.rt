//! What changed between two boards, and a board that takes back what it did.
//!
//! - a grid with the boards before it and those undone: [`History`]
//! - the cells in which one board differs from another: [`changes`], an iterator; [`change_commands`], the commands
//!   that write them
#![tactic(auto)]

mod asked;
mod change;
mod differences;
mod history;

pub use differences::{ChangeIter, change_commands, changes};
pub use history::History;
