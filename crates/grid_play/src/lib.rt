//! Plays a script on a grid: reads the grid and the commands, runs them, and writes a line for each reply.
#![tactic(auto)]

mod command;
mod fault;
pub mod laws;
mod run;
mod script;

pub use fault::ScriptFault;
pub use run::play;
pub use script::Script;
