//! Plays each script of the cases, in both kinds of run: it writes the expected lines.
//!
//! A case is a line `== NAME`, a script, a line `--`, and what the script writes, or the text of its fault.
use crate::case::{Case, CaseError};
use crate::shown::shown_run;
use grid_play::play;
use std::alloc::{AllocError, Global};

// What a script writes, or the text of its fault.
fn output_of(alloc: Global, script: &str, deferred: bool) -> Result<String, AllocError> {
    match play(alloc, script.as_bytes(), deferred) {
        Ok(output) => Ok(output),
        Err(fault) => format!(in alloc; "{fault}\n"),
    }
}

/// Returns what a script writes: run at once if that isn't the expected text, or else deferred.
pub fn actual(alloc: Global, case: Case<'_>) -> Result<String, CaseError> {
    let output = output_of(alloc, case.given, false)?;
    if output.as_str() != case.expected {
        return Ok(shown_run(alloc, "at once", output, case.expected)?);
    }
    let deferred = output_of(alloc, case.given, true)?;
    Ok(shown_run(alloc, "deferred", deferred, case.expected)?)
}
