//! Commands on a grid as data: what they are, how they are read, and why they are refused. And the errors of a grid's
//! calls.
#![tactic(auto)]

mod command;
mod error;
mod refusals;
mod request;

pub use command::{Axis, Command, Refusal, Reply, RunStopped};
pub use error::{GridError, LineRefused, LinesRefused, ShapeError};
pub use refusals::{first_len, line_refusal, lines_refusal, pad_refusal};
pub use request::{LineEdit, Request, request_of};
