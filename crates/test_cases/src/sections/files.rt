//! Reads pictures and sheets that other programs wrote, and says what they are: the rows, or what is wrong. Or makes
//! what another program made of the same file, and says whether the bytes are the same.
//!
//! A case is a line `== CALL NAME` and the expected lines. After the call is the name of a file, or of two, of which it
//! makes the second of the first, or a short text as a string of JSON, each character a byte. `fixtures.py` makes the
//! files and the cases by netpbm, Python and LibreOffice Calc; what the short texts are was found by hand.

mod numbers;
mod pictures;
mod sheets;

use crate::case::{Case, CaseError};
use anyhow::Result;
use serde_json::Value;
use std::alloc::Global;
use std::fs;
use std::rt::Files;

// What a file is.
fn described(alloc: Global, call: &str, bytes: &[u8]) -> Result<String> {
    match call {
        "gray" => pictures::gray(alloc, bytes),
        "colored" => pictures::colored(alloc, bytes),
        "too_large" => pictures::too_large(alloc, bytes),
        "sheet" => sheets::sheet(alloc, bytes),
        "headed" => sheets::headed(alloc, bytes),
        "transposed" => sheets::transposed(alloc, bytes),
        "numbers" => numbers::numbers(alloc, bytes),
        "headed_numbers" => numbers::headed_numbers(alloc, bytes),
        "field" => numbers::field(alloc, bytes),
        "values" => numbers::values(alloc, bytes),
        _ => Err(CaseError::UnknownCall.into()),
    }
}

// The bytes that a call makes of a file.
fn made(alloc: Global, call: &str, name: &str, bytes: &[u8]) -> Result<Vec<u8>> {
    match call {
        "sheet_again" => sheets::sheet_again(alloc, bytes),
        "sheet_transposed" => sheets::sheet_transposed(alloc, bytes),
        "headed_again" => sheets::headed_again(alloc, bytes),
        _ => if name.ends_with(".ppm") {
            pictures::colored_turned(alloc, call, bytes)
        } else {
            pictures::gray_turned(alloc, call, bytes)
        },
    }
}

// The bytes that a string of JSON says, each character one.
fn bytes_of(alloc: Global, text: &str) -> Result<Vec<u8>> {
    let value = Value::from_str(alloc, text)?;
    let mut bytes = Vec::new(alloc);
    for c in value.as_str().unwrap_or("").chars() {
        bytes.push(u32::from(c).min(255) as u8)?;
    }
    Ok(bytes)
}

// Whether a call makes one file of another.
fn makes<R: Files + AllocGlobal>(rt: &R, call: &str, name: &str, other: &str) -> Result<bool> {
    let bytes = fs::read(rt, name)?;
    let made = made(rt.alloc(), call, name, bytes.as_slice())?;
    Ok(made == fs::read(rt, other)?)
}

// What a call makes of a file, or of two, or of a text.
fn called<R: Files + AllocGlobal>(rt: &R, line: &str) -> Result<String> {
    let alloc = rt.alloc();
    let (call, names) = line.split_once(" ").unwrap_or((line, ""));
    if names.starts_with("\"") {
        return described(alloc, call, bytes_of(alloc, names)?.as_slice());
    }
    let Some((name, other)) = names.split_once(" ") else {
        return described(alloc, call, fs::read(rt, names)?.as_slice());
    };
    let said = if makes(rt, call, name, other)? {
        "the same bytes\n"
    } else {
        "other bytes\n"
    };
    Ok(String::from_str(alloc, said)?)
}

/// Returns what the call of a case says, or the text of its error.
pub fn actual<R: Files + AllocGlobal>(rt: &R, case: Case<'_>) -> Result<String, CaseError> {
    match called(rt, case.title) {
        Ok(text) => Ok(text),
        Err(error) => Ok(format!(in rt.alloc(); "error: {error:#}")?),
    }
}
