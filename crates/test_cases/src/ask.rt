//! How a call of a case is read.
//!
//! A line has the name of a call, words or numbers, and after a colon lines of cells between slashes, as
//! `insert_rows 1: 5 6 / 7 8`. A number is written out, or `max`, which is the largest.
use crate::case::{CaseError, shape_error};
use grid::{Direction, Grid, Move, Order, Symmetry};
use std::alloc::Global;
use test_support::fixtures::cut;

/// A call, what is after its name, and the text of its lines of cells.
#[derive(Clone, Copy)]
pub struct Ask<'a> {
    pub call: &'a str,
    pub rest: &'a str,
    cells: Option<&'a str>,
}

// The cells of a line, or this error at a word that isn't a number.
fn cells_of(alloc: Global, text: &str, error: CaseError) -> Result<Vec<i64>, CaseError> {
    let mut cells = Vec::new(alloc);
    for word in text.split_whitespace() {
        match word.parse::<i64>() {
            Ok(cell) => cells.push(cell)?,
            Err(_) => return Err(error),
        }
    }
    Ok(cells)
}

impl<'a> Ask<'a> {
    /// Reads a line.
    pub fn of(line: &'a str) -> Ask<'a> {
        let (head, cells) = match line.split_once(":") {
            Some((head, cells)) => (head, Some(cells)),
            None => (line, None),
        };
        let (call, rest) = head.split_once(" ").unwrap_or((head, ""));
        Ask { call, rest, cells }
    }

    /// Returns a word after the name, or an empty one.
    pub fn word(&self, at: usize) -> &'a str {
        self.rest.split_whitespace().nth(at).unwrap_or("")
    }

    /// Returns a word as a number.
    pub fn number(&self, at: usize) -> usize {
        self.word(at).parse::<usize>().unwrap_or(usize::MAX)
    }

    /// Returns a word as a signed number, of which `min` is the least.
    pub fn signed(&self, at: usize) -> isize {
        match self.word(at) {
            "min" => isize::MIN,
            word => word.parse::<isize>().unwrap_or(isize::MAX),
        }
    }

    /// Returns two words as a position, or as a size.
    pub fn position(&self, at: usize) -> (usize, usize) {
        (self.number(at), self.number(at.saturating_add(1)))
    }

    /// Returns a word as a cell.
    pub fn cell(&self, at: usize) -> i64 {
        self.word(at).parse::<i64>().unwrap_or(0)
    }

    /// Returns the cells of the one line.
    pub fn line(&self, alloc: Global) -> Result<Vec<i64>, CaseError> {
        cells_of(alloc, self.cells.unwrap_or(""), CaseError::BadArgument)
    }

    /// Returns the lines of cells.
    pub fn lines(&self, alloc: Global) -> Result<Vec<Vec<i64>>, CaseError> {
        let mut lines = Vec::new(alloc);
        if let Some(cells) = self.cells {
            for line in cells.split('/') {
                lines.push(cells_of(alloc, line, CaseError::BadArgument)?)?;
            }
        }
        Ok(lines)
    }

    /// Returns a word as an order.
    pub fn order(&self, at: usize) -> Order {
        order_of(self.word(at))
    }

    /// Returns a word as a symmetry.
    pub fn symmetry(&self, at: usize) -> Symmetry {
        symmetry_of(self.word(at))
    }

    /// Returns a word as a direction.
    pub fn direction(&self, at: usize) -> Result<Direction, CaseError> {
        Ok(match self.word(at) {
            "Up" => Direction::Up,
            "UpRight" => Direction::UpRight,
            "Right" => Direction::Right,
            "DownRight" => Direction::DownRight,
            "Down" => Direction::Down,
            "DownLeft" => Direction::DownLeft,
            "Left" => Direction::Left,
            "UpLeft" => Direction::UpLeft,
            _ => return Err(CaseError::BadArgument),
        })
    }
}

/// Returns the symmetry of this name.
pub fn symmetry_of(word: &str) -> Symmetry {
    match word {
        "Identity" => Symmetry::Identity,
        word => match move_of(word) {
            Some(step) => Symmetry::of(step),
            None => Symmetry::AntiTranspose,
        },
    }
}

// The order of this name.
fn order_of(word: &str) -> Order {
    match word {
        "ColumnMajor" => Order::ColumnMajor,
        _ => Order::RowMajor,
    }
}

/// Returns the move of this name.
pub fn move_of(word: &str) -> Option<Move> {
    match word {
        "Transpose" => Some(Move::Transpose),
        "FlipCols" => Some(Move::FlipCols),
        "FlipRows" => Some(Move::FlipRows),
        "RotateLeft" => Some(Move::RotateLeft),
        "RotateRight" => Some(Move::RotateRight),
        "RotateHalf" => Some(Move::RotateHalf),
        _ => None,
    }
}

/// Reads a board, as the first line of a script has it: the order, the number of columns and the cells in storage
/// order.
pub fn board_of(alloc: Global, line: &str) -> Result<Grid<i64>, CaseError> {
    let (order, rest) = line.split_once(" ").unwrap_or((line, ""));
    let (cols, cells) = rest.split_once(" ").unwrap_or((rest, ""));
    let cols = cols.parse::<usize>().unwrap_or(0);
    let cells = cells_of(alloc, cells, CaseError::BadBoard)?;
    match cut(cells, cols, order_of(order)) {
        Ok(board) => Ok(board),
        Err(error) => Err(shape_error(error, CaseError::BadBoard)),
    }
}
