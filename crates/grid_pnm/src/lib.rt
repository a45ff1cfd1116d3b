//! Grids as pictures, and pictures as grids, in the portable formats of netpbm: a gray picture (PGM) has a sample for
//! each cell, a colored one (PPM) three.
//!
//! Pictures are written raw, with samples from 0 to 255. They are read raw or plain, with a greatest sample of 255 at
//! most.
#![tactic(auto)]

mod enlarge;
mod error;
mod head;
pub mod laws;
mod read;
mod samples;
mod scan;
mod write;

pub use enlarge::enlarged;
pub use error::PnmError;
pub use head::{Header, read_header};
pub use read::{from_pgm, from_ppm};
pub use write::{to_pgm, to_ppm};
