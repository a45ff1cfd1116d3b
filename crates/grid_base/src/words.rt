//! The eight symmetries of a table, and words of moves.
ghost use Rattle.std.specs.Prelude.{◌≡◌, ◌↔◌, ℕ, List};
ghost use Rattle.grid_base.specs.Prelude.{IsTable, act, IsThen, IsInverse, flags_of, from_flags, of_move, word_image, IsNormalForm, ActAlike};
ghost use Rattle.grid_base.specs.declared.words.Move.{Move};

/// A symmetry of tables. Each is a transpose or none, then a flip of the rows or none, then a flip of the columns
/// or none.
///
/// Below, the image of [[1, 2, 3], [4, 5, 6]] under each.
#[derive(Clone, Copy, Debug, PartialEq, Eq)]
pub enum Symmetry {
    /// [[1, 2, 3], [4, 5, 6]]
    Identity,
    /// [[3, 2, 1], [6, 5, 4]]
    FlipCols,
    /// [[4, 5, 6], [1, 2, 3]]
    FlipRows,
    /// [[6, 5, 4], [3, 2, 1]]
    RotateHalf,
    /// [[1, 4], [2, 5], [3, 6]]
    Transpose,
    /// [[3, 6], [2, 5], [1, 4]]
    RotateLeft,
    /// [[4, 1], [5, 2], [6, 3]]
    RotateRight,
    /// [[6, 3], [5, 2], [4, 1]]
    AntiTranspose,
}

/// A step of a word: what one of the six calls of a grid does.
#[derive(Clone, Copy, Debug, PartialEq, Eq)]
pub enum Move {
    /// Rows become columns.
    Transpose,
    /// Each row is reversed.
    FlipCols,
    /// The rows are reversed.
    FlipRows,
    /// A quarter turn counterclockwise.
    RotateLeft,
    /// A quarter turn clockwise.
    RotateRight,
    /// A half turn.
    RotateHalf,
}

impl Symmetry {
    /// The eight symmetries, in the order of their declaration: the four that keep rows as rows, then the four that
    /// transpose.
    pub const ALL: [Symmetry; 8] = [
        Symmetry::Identity,
        Symmetry::FlipCols,
        Symmetry::FlipRows,
        Symmetry::RotateHalf,
        Symmetry::Transpose,
        Symmetry::RotateLeft,
        Symmetry::RotateRight,
        Symmetry::AntiTranspose,
    ];

    /// Returns the symmetry that a move does.
    pub fn of(step: Move) -> Symmetry
        ensures { result ≡ of_move step }
    {
        match step {
            Move::Transpose => Symmetry::Transpose,
            Move::FlipCols => Symmetry::FlipCols,
            Move::FlipRows => Symmetry::FlipRows,
            Move::RotateLeft => Symmetry::RotateLeft,
            Move::RotateRight => Symmetry::RotateRight,
            Move::RotateHalf => Symmetry::RotateHalf,
        }
    }

    /// Returns whether it transposes, and whether it then flips the rows and the columns.
    ///
    ///     RotateLeft.flags()   (true, true, false)
    pub fn flags(self) -> (bool, bool, bool)
        ensures { result ≡ flags_of self }
    {
        match self {
            Symmetry::Identity => (false, false, false),
            Symmetry::FlipCols => (false, false, true),
            Symmetry::FlipRows => (false, true, false),
            Symmetry::RotateHalf => (false, true, true),
            Symmetry::Transpose => (true, false, false),
            Symmetry::RotateLeft => (true, true, false),
            Symmetry::RotateRight => (true, false, true),
            Symmetry::AntiTranspose => (true, true, true),
        }
    }

    fn with_flags(transposes: bool, flips_rows: bool, flips_cols: bool) -> Symmetry
        ensures { result ≡ from_flags transposes flips_rows flips_cols }
    {
        match (transposes, flips_rows, flips_cols) {
            (false, false, false) => Symmetry::Identity,
            (false, false, true) => Symmetry::FlipCols,
            (false, true, false) => Symmetry::FlipRows,
            (false, true, true) => Symmetry::RotateHalf,
            (true, false, false) => Symmetry::Transpose,
            (true, true, false) => Symmetry::RotateLeft,
            (true, false, true) => Symmetry::RotateRight,
            (true, true, true) => Symmetry::AntiTranspose,
        }
    }

    /// Returns the symmetry that acts on every table as this one followed by `next`.
    pub fn then(self, next: Symmetry) -> Symmetry
        ensures { IsThen self next result }
    {
        let (transposes, rows, cols) = self.flags();
        let (next_transposes, next_rows, next_cols) = next.flags();
        if next_transposes {
            Symmetry::with_flags(!transposes, cols ^ next_rows, rows ^ next_cols)
        } else {
            Symmetry::with_flags(transposes, rows ^ next_rows, cols ^ next_cols)
        }
    }

    /// Returns the symmetry whose action after this one leaves every table as it was.
    pub fn inverse(self) -> Symmetry
        ensures { IsInverse self result }
    {
        match self {
            Symmetry::RotateLeft => Symmetry::RotateRight,
            Symmetry::RotateRight => Symmetry::RotateLeft,
            other => other,
        }
    }
}

/// Returns the normal form of a word: the one symmetry that acts on every table as its moves from left to right.
///
/// Two words have one normal form exactly if they act alike on all tables of integers.
pub fn reduce(word: &[Move]) -> Symmetry
    ensures normal { IsNormalForm word.now result }
    ensures acts { (t : List (List ℕ)) → IsTable t → word_image word.now t ≡ act result t }
    ensures alike { (v : List Move) → IsNormalForm v result ↔ ActAlike word.now v }
{
    let mut reduced = Symmetry::Identity;
    for step in word {
        reduced = reduced.then(Symmetry::of(*step));
    }
    reduced
}
