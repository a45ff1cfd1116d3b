//! Cells that JSON can hold.
ghost use Rattle.std.specs.Prelude.{◌≡◌, ◌^◌, Option, IfOk, Some, pos, string_bytes, option_map};
ghost use Rattle.serde_json.specs.Data.{Data};
ghost use Rattle.serde_json.specs.View.{view};
ghost use Rattle.grid_json.specs.Content.{Content, whole, truth, text as text_of, written, unsigned_content, signed_content, truth_content, text_content};

use serde_json::Value;
use std::alloc::{AllocError, Global};

/// A cell that JSON can hold.
///
/// Implemented for `u8`, `u16`, `u32`, `u64`, `i8`, `i16`, `i32`, `i64`, `bool` and `String`.
pub trait Cell: Drop {
    // What a cell says.
    ghost content: { Self → Content };

    // What the cell that is read of this data says, or nothing where the data isn't a cell.
    ghost read: { Data → Option Content };

    /// Returns the cell as a JSON value, which is read as the same content.
    ///
    ///     5, true and "a"   to_cell(alloc)   5, true and "a"
    ///
    /// Fails: if allocation fails.
    fn to_cell(&self, alloc: Global) -> Result<Value, AllocError>
        ensures written { IfOk result (λ value. view value ≡ written (content self.now)) }
        ensures read { IfOk result (λ value. read (view value) ≡ Some (content self.now)) };

    /// Returns the cell that a JSON value is, or `None` where it isn't one. A number is a cell exactly in the range of
    /// the type: 0 and 255 are a `u8`, and 256, -1 and 1.0 are not.
    ///
    /// Fails: if allocation fails.
    fn from_cell(alloc: Global, value: &Value) -> Result<Option<Self>, AllocError>
        ensures { IfOk result (λ found. option_map content found ≡ read (view value.now)) };
}

impl Cell for u8 {
    ghost content = { λ number. whole (pos number) };

    ghost read = { unsigned_content (2 ^ 8) };

    fn to_cell(&self, _alloc: Global) -> Result<Value, AllocError> {
        Ok(Value::from(*self))
    }

    fn from_cell(_alloc: Global, value: &Value) -> Result<Option<u8>, AllocError> {
        Ok(value.as_u64().and_then(|number| u8::try_from(number).ok()))
    }
}

impl Cell for u16 {
    ghost content = { λ number. whole (pos number) };

    ghost read = { unsigned_content (2 ^ 16) };

    fn to_cell(&self, _alloc: Global) -> Result<Value, AllocError> {
        Ok(Value::from(*self))
    }

    fn from_cell(_alloc: Global, value: &Value) -> Result<Option<u16>, AllocError> {
        Ok(value.as_u64().and_then(|number| u16::try_from(number).ok()))
    }
}

impl Cell for u32 {
    ghost content = { λ number. whole (pos number) };

    ghost read = { unsigned_content (2 ^ 32) };

    fn to_cell(&self, _alloc: Global) -> Result<Value, AllocError> {
        Ok(Value::from(*self))
    }

    fn from_cell(_alloc: Global, value: &Value) -> Result<Option<u32>, AllocError> {
        Ok(value.as_u64().and_then(|number| u32::try_from(number).ok()))
    }
}

impl Cell for u64 {
    ghost content = { λ number. whole (pos number) };

    ghost read = { unsigned_content (2 ^ 64) };

    fn to_cell(&self, _alloc: Global) -> Result<Value, AllocError> {
        Ok(Value::from(*self))
    }

    fn from_cell(_alloc: Global, value: &Value) -> Result<Option<u64>, AllocError> {
        Ok(value.as_u64())
    }
}

impl Cell for i8 {
    ghost content = { whole };

    ghost read = { signed_content (2 ^ 7) };

    fn to_cell(&self, _alloc: Global) -> Result<Value, AllocError> {
        Ok(Value::from(*self))
    }

    fn from_cell(_alloc: Global, value: &Value) -> Result<Option<i8>, AllocError> {
        Ok(value.as_i64().and_then(|number| i8::try_from(number).ok()))
    }
}

impl Cell for i16 {
    ghost content = { whole };

    ghost read = { signed_content (2 ^ 15) };

    fn to_cell(&self, _alloc: Global) -> Result<Value, AllocError> {
        Ok(Value::from(*self))
    }

    fn from_cell(_alloc: Global, value: &Value) -> Result<Option<i16>, AllocError> {
        Ok(value.as_i64().and_then(|number| i16::try_from(number).ok()))
    }
}

impl Cell for i32 {
    ghost content = { whole };

    ghost read = { signed_content (2 ^ 31) };

    fn to_cell(&self, _alloc: Global) -> Result<Value, AllocError> {
        Ok(Value::from(*self))
    }

    fn from_cell(_alloc: Global, value: &Value) -> Result<Option<i32>, AllocError> {
        Ok(value.as_i64().and_then(|number| i32::try_from(number).ok()))
    }
}

impl Cell for i64 {
    ghost content = { whole };

    ghost read = { signed_content (2 ^ 63) };

    fn to_cell(&self, _alloc: Global) -> Result<Value, AllocError> {
        Ok(Value::from(*self))
    }

    fn from_cell(_alloc: Global, value: &Value) -> Result<Option<i64>, AllocError> {
        Ok(value.as_i64())
    }
}

impl Cell for bool {
    ghost content = { truth };

    ghost read = { truth_content };

    fn to_cell(&self, _alloc: Global) -> Result<Value, AllocError> {
        Ok(Value::Bool(*self))
    }

    fn from_cell(_alloc: Global, value: &Value) -> Result<Option<bool>, AllocError> {
        Ok(value.as_bool())
    }
}

impl Cell for String {
    ghost content = { λ text. text_of (string_bytes text) };

    ghost read = { text_content };

    fn to_cell(&self, alloc: Global) -> Result<Value, AllocError> {
        let copy = String::from_str(alloc, self.as_str())?;
        Ok(Value::String(copy))
    }

    fn from_cell(alloc: Global, value: &Value) -> Result<Option<String>, AllocError> {
        match value.as_str() {
            Some(text) => Ok(Some(String::from_str(alloc, text)?)),
            None => Ok(None),
        }
    }
}
