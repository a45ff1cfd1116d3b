//! Cells that are integers.
use crate::ask::Ask;
use crate::case::CaseError;
use crate::shown::shown;
use grid::Whole;
use std::alloc::Global;

fn wholes<T: Whole + Drop>(alloc: Global, least: T, most: T) -> Result<String, CaseError> {
    shown(alloc, (least.to_whole(), most.to_whole()))
}

fn with_a_sign(alloc: Global, name: &str) -> Result<String, CaseError> {
    match name {
        "i8" => wholes(alloc, i8::MIN, i8::MAX),
        "i16" => wholes(alloc, i16::MIN, i16::MAX),
        "i32" => wholes(alloc, i32::MIN, i32::MAX),
        "i64" => wholes(alloc, i64::MIN, i64::MAX),
        "isize" => wholes(alloc, isize::MIN, isize::MAX),
        _ => Err(CaseError::UnknownCall),
    }
}

/// Returns the least and the most cell of a type, as whole numbers.
pub fn actual(alloc: Global, ask: Ask<'_>) -> Result<String, CaseError> {
    match ask.word(0) {
        "u8" => wholes(alloc, 0, u8::MAX),
        "u16" => wholes(alloc, 0, u16::MAX),
        "u32" => wholes(alloc, 0, u32::MAX),
        "u64" => wholes(alloc, 0, u64::MAX),
        "usize" => wholes(alloc, 0, usize::MAX),
        name => with_a_sign(alloc, name),
    }
}
