//! Why a grid could not be made or edited: the errors of the calls.
ghost use Rattle.std.specs.Prelude.{◌≡◌};
ghost use Rattle.grid_commands.specs.Errors.{as_shape_error};
ghost use Rattle.grid_commands.specs.declared.error.GridError.TheVariants.{Memory};
ghost use Rattle.grid_commands.specs.declared.error.ShapeError.TheVariants.{Memory as OutOfMemory};

use std::alloc::{AllocError, AllocFailed, Allocator, Global};
use std::fmt;
use thiserror::Error;

/// Why a grid of a size could not be made, or could not grow to it.
#[derive(Clone, Copy, Debug, PartialEq, Eq)]
pub enum GridError {
    /// The number of cells would exceed `usize::MAX`.
    TooLarge,
    /// Allocation failed.
    Memory,
}

/// Why cells or rows could not be made a grid.
#[derive(Clone, Copy, Debug, PartialEq, Eq, Error)]
pub enum ShapeError {
    /// The number of cells would exceed `usize::MAX`.
    #[error("too many cells")]
    TooLarge,
    /// `len` cells cannot be cut into rows of `cols`.
    #[error("{len} cells do not fit rows of {cols}")]
    Shape {
        /// The number of cells.
        len: usize,
        /// The length of a row that was asked for.
        cols: usize,
    },
    /// The rows are not of one length.
    #[error("row {row} has {len} cells, not {cols}")]
    Ragged {
        /// The first row, counted from 0, whose length is not that of row 0.
        row: usize,
        /// The length of that row.
        len: usize,
        /// The length of row 0.
        cols: usize,
    },
    /// Allocation failed.
    #[error("out of memory")]
    Memory,
}

/// The error of a call that inserts a line: the line, which comes back, and why. The grid is unchanged.
#[derive(Drop)]
#[derive_where(Debug, PartialEq; T)]
pub struct LineRefused<T, A: Allocator = Global> {
    /// The line, unchanged.
    pub line: Vec<T, A>,
    /// Why it was refused.
    pub fault: GridError,
}

/// The error of a call that inserts several lines: the lines, which come back, and why. The grid is unchanged.
#[derive(Drop)]
#[derive_where(Debug, PartialEq; T)]
pub struct LinesRefused<T, A: Allocator = Global> {
    /// The lines, unchanged.
    pub lines: Vec<Vec<T, A>, A>,
    /// Why they were refused.
    pub fault: GridError,
}

/// Writes `too many cells` or `out of memory`.
impl fmt::Display for GridError {
    ghost use Rattle.std.specs.Prelude.{Some};
    ghost use Rattle.grid_commands.specs.Errors.{fault_text};

    ghost output = { λ fault. Some (fault_text fault) };

    fn fmt<W: fmt::Write>(&self, f: &mut fmt::Formatter<W>) -> fmt::Result {
        match self {
            GridError::TooLarge => f.write_str("too many cells"),
            GridError::Memory => f.write_str("out of memory"),
        }
    }
}

impl std::error::Error for GridError {}

/// Writes the fault, and nothing of the line.
impl<T, A: Allocator> fmt::Display for LineRefused<T, A> {
    ghost use Rattle.std.specs.Prelude.{Some};
    ghost use Rattle.grid_commands.specs.Errors.{fault_text};

    ghost output = { λ refused. Some (fault_text refused.fault) };

    fn fmt<W: fmt::Write>(&self, f: &mut fmt::Formatter<W>) -> fmt::Result {
        fmt::Display::fmt(&self.fault, f)
    }
}

impl<T: fmt::Debug + Drop, A: Allocator> std::error::Error for LineRefused<T, A> {}

/// Writes the fault, and nothing of the lines.
impl<T, A: Allocator> fmt::Display for LinesRefused<T, A> {
    ghost use Rattle.std.specs.Prelude.{Some};
    ghost use Rattle.grid_commands.specs.Errors.{fault_text};

    ghost output = { λ refused. Some (fault_text refused.fault) };

    fn fmt<W: fmt::Write>(&self, f: &mut fmt::Formatter<W>) -> fmt::Result {
        fmt::Display::fmt(&self.fault, f)
    }
}

impl<T: fmt::Debug + Drop, A: Allocator> std::error::Error for LinesRefused<T, A> {}

/// Returns the fault. The line is dropped.
impl<T: Drop, A: Allocator> From<LineRefused<T, A>> for GridError {
    ghost from_gives = { λ refused e. e ≡ refused.fault };

    fn from(refused: LineRefused<T, A>) -> GridError {
        refused.fault
    }
}

/// Returns the fault. The lines are dropped.
impl<T: Drop, A: Allocator> From<LinesRefused<T, A>> for GridError {
    ghost from_gives = { λ refused e. e ≡ refused.fault };

    fn from(refused: LinesRefused<T, A>) -> GridError {
        refused.fault
    }
}

/// Returns `GridError::Memory`.
impl From<AllocError> for GridError {
    ghost from_gives = { λ _ e. e ≡ Memory };

    fn from(_refused: AllocError) -> GridError {
        GridError::Memory
    }
}

/// Returns `GridError::Memory`. The value that was not stored is dropped.
impl<T: Drop> From<AllocFailed<T>> for GridError {
    ghost from_gives = { λ _ e. e ≡ Memory };

    fn from(_refused: AllocFailed<T>) -> GridError {
        GridError::Memory
    }
}

/// Returns `ShapeError::Memory`.
impl From<AllocError> for ShapeError {
    ghost from_gives = { λ _ e. e ≡ OutOfMemory };

    fn from(_refused: AllocError) -> ShapeError {
        ShapeError::Memory
    }
}

/// Returns the same fault.
impl From<GridError> for ShapeError {
    ghost from_gives = { λ fault e. e ≡ as_shape_error fault };

    fn from(fault: GridError) -> ShapeError {
        match fault {
            GridError::TooLarge => ShapeError::TooLarge,
            GridError::Memory => ShapeError::Memory,
        }
    }
}
