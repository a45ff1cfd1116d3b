//! Cells that are integers.
ghost use Rattle.std.specs.Prelude.{◌≡◌, ℤ, pos};

/// A cell that is an integer.
///
/// Implemented for `u8`, `u16`, `u32`, `u64`, `usize`, `i8`, `i16`, `i32`, `i64` and `isize`.
pub trait Whole {
    // The number that a cell is.
    ghost whole: { Self → ℤ };

    /// Returns the number.
    ///
    /// The `i8` of -7 gives -7, the `u64` of 10 gives 10.
    fn to_whole(&self) -> i128
        ensures { result ≡ whole self.now };
}

impl Whole for u8 {
    ghost whole = { pos };

    fn to_whole(&self) -> i128 {
        *self as i128
    }
}

impl Whole for u16 {
    ghost whole = { pos };

    fn to_whole(&self) -> i128 {
        *self as i128
    }
}

impl Whole for u32 {
    ghost whole = { pos };

    fn to_whole(&self) -> i128 {
        *self as i128
    }
}

impl Whole for u64 {
    ghost whole = { pos };

    fn to_whole(&self) -> i128 {
        *self as i128
    }
}

impl Whole for usize {
    ghost whole = { pos };

    fn to_whole(&self) -> i128 {
        *self as i128
    }
}

impl Whole for i8 {
    ghost whole = { λ z. z };

    fn to_whole(&self) -> i128 {
        *self as i128
    }
}

impl Whole for i16 {
    ghost whole = { λ z. z };

    fn to_whole(&self) -> i128 {
        *self as i128
    }
}

impl Whole for i32 {
    ghost whole = { λ z. z };

    fn to_whole(&self) -> i128 {
        *self as i128
    }
}

impl Whole for i64 {
    ghost whole = { λ z. z };

    fn to_whole(&self) -> i128 {
        *self as i128
    }
}

impl Whole for isize {
    ghost whole = { λ z. z };

    fn to_whole(&self) -> i128 {
        *self as i128
    }
}
