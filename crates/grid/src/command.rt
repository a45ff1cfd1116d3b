//! Commands as a grid executes them: a step, and runs of steps.
mod lines;
mod runs;
mod step;

pub use runs::run;
