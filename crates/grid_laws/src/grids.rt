//! Laws of grids as public calls: each makes the calls that its name says, and ensures what they leave.
//!
//! A clause `law`, `law_rows` or `law_line` states the law itself. It speaks of tables and says nothing of the calls;
//! what those leave is in the other clauses.
ghost use Rattle.std.specs.Prelude.{◌≡◌, ◌<◌, ◌≤◌, List, length, map, insert, remove, slice_get, Some, OnOk, OnErr, IfOk, IfErr, MatchOption};
ghost use Rattle.grid.specs.Prelude.{GridValue, Counts, row_count, col_count, IsTable, storage, act, order_after, IsInverse, ClonesAreEqual, CommandValue, command_value, ReplyValue, reply_value, FitsRow, FitsCol, insert_col, Ran, RunGives, AreKnown};
ghost use Rattle.grid_base.specs.declared.words.Symmetry.{Symmetry};
ghost use Rattle.grid_base.specs.declared.words.Symmetry.TheVariants.{FlipCols, FlipRows, RotateHalf, RotateLeft, RotateRight, Transpose};

use grid::{Command, Grid, LineRefused, Reply, RunStopped, run};
use grid_base::{Symmetry, Tally, laws};
use std::alloc::{AllocError, Allocator};

/// Rotates a quarter turn clockwise and then one counterclockwise, which leaves the rows and the order.
pub fn rotate_right_then_left<T, A: Allocator>(grid: &mut Grid<T, A>)
    ensures same { grid.new ≡ grid.old }
    ensures law { (t : List (List T)) → IsTable t → act RotateLeft (act RotateRight t) ≡ t }
{
    grid.rotate_right();
    grid.rotate_left();
}

/// Rotates four quarter turns counterclockwise, which leaves the rows and the order.
pub fn rotate_left_four_times<T, A: Allocator>(grid: &mut Grid<T, A>)
    ensures same { grid.new ≡ grid.old }
    ensures law { (t : List (List T))
        → IsTable t → act RotateLeft (act RotateLeft (act RotateLeft (act RotateLeft t))) ≡ t }
{
    grid.rotate_left();
    grid.rotate_left();
    grid.rotate_left();
    grid.rotate_left(); // the fourth
}

/// Flips the rows and then the columns, which is a half turn.
pub fn flip_rows_then_cols<T, A: Allocator>(grid: &mut Grid<T, A>)
    ensures rows { grid.new.rows ≡ act RotateHalf grid.old.rows }
    ensures order { grid.new.order ≡ grid.old.order }
    ensures law { (t : List (List T))
        → IsTable t → act FlipCols (act FlipRows t) ≡ act RotateHalf t }
{
    grid.flip_rows();
    grid.flip_cols();
}

/// Applies two symmetries joined into one, which is applying `first` and then `second`.
pub fn apply_then<T, A: Allocator>(grid: &mut Grid<T, A>, first: Symmetry, second: Symmetry)
    ensures rows { grid.new.rows ≡ act second (act first grid.old.rows) }
    ensures order { grid.new.order ≡ order_after second (order_after first grid.old.order) }
{
    grid.apply(laws::then_acts::<T>(first, second));
}

/// Applies a symmetry and then its inverse, which leaves the rows and the order.
pub fn apply_then_inverse<T, A: Allocator>(grid: &mut Grid<T, A>, symmetry: Symmetry)
    ensures same { grid.new ≡ grid.old }
    ensures law { (t : List (List T))
        → IsTable t → (v : Symmetry) → IsInverse symmetry v → act v (act symmetry t) ≡ t }
{
    grid.apply(symmetry);
    grid.apply(laws::inverse_acts::<T>(symmetry));
}

/// Returns the grid that is made of a grid's own vector, with its columns and its order, which is the same grid.
///
/// Cost: constant; no memory.
pub fn rebuilt<T, A: Allocator>(grid: Grid<T, A>) -> Grid<T, A>
    ensures same { result ≡ grid }
    ensures law { (t : List (List T)) → IsTable t → col_count t ≡ col_count grid.rows
        → storage grid.order t ≡ storage grid.order grid.rows → t ≡ grid.rows }
{
    let (_, cols) = grid.size();
    let order = grid.order();
    Grid::from_vec_with_order(grid.into_vec(), cols, order)
}

/// Pushes a row, pops it, and returns it, which leaves the rows and the order.
///
/// Requires: the line is not empty, and fits as in [`push_row`](Grid::push_row).
/// Fails: `LineRefused` where the push fails; the grid is unchanged, and the line comes back. The inner `AllocError`
/// where the pop fails; the row stays in the grid.
pub fn push_row_then_pop_row<T, A: Allocator>(
    grid: &mut Grid<T, A>,
    line: Vec<T, A>,
) -> Result<Result<Option<Vec<T, A>>, AllocError>, LineRefused<T, A>>
where
    A: Clone,
    requires nonempty { 0 < length line.items }
    requires fits { FitsRow grid.old.rows (length line.items) }
    ensures grid { IfOk result (λ popped. OnOk popped (grid.new ≡ grid.old)) }
    ensures line { IfOk result
        (λ popped. IfOk popped (λ taken. MatchOption taken ⊥ (λ row. row.items ≡ line.items))) }
    ensures kept { IfOk result (λ popped.
        OnErr popped (grid.new.rows ≡ insert grid.old.rows (row_count grid.old.rows) line.items)) }
    ensures refused { OnErr result (grid.new ≡ grid.old) }
    ensures refused_line { IfErr result (λ refused. refused.line.items ≡ line.items) }
    ensures law_rows { (t : List (List T)) (row : List T)
        → remove (insert t (row_count t) row) (row_count t) ≡ t }
    ensures law_line { (t : List (List T)) (row : List T)
        → slice_get (insert t (row_count t) row) (row_count t) ≡ Some row }
{
    grid.push_row(line)?;
    Ok(grid.pop_row())
}

/// Inserts a column into one grid, and the same line as a row, between two transposes, into an equal grid. Returns both
/// results. Where both are done, the two grids are equal.
///
/// Requires: the grids are equal, and so are the lines, which are not empty and fit as in
/// [`insert_col`](Grid::insert_col); `at` is at most the number of columns.
/// Fails: each of the two as `insert_col`; its grid is unchanged, and its line comes back.
pub fn insert_col_or_row_across<T, A: Allocator>(
    grid: &mut Grid<T, A>,
    other: &mut Grid<T, A>,
    at: usize,
    line: Vec<T, A>,
    other_line: Vec<T, A>,
) -> (Result<(), LineRefused<T, A>>, Result<(), LineRefused<T, A>>)
    requires same { other.old ≡ grid.old }
    requires same_line { other_line.items ≡ line.items }
    requires nonempty { 0 < length line.items }
    requires fits { FitsCol grid.old.rows (length line.items) }
    requires point { at ≤ col_count grid.old.rows }
    ensures same { OnOk result.0 (OnOk result.1 (other.new ≡ grid.new)) }
    ensures as_col { OnOk result.0 (grid.new.rows ≡ insert_col at line.items grid.old.rows) }
    ensures as_row { OnOk result.1 (other.new.rows ≡ insert_col at line.items other.old.rows) }
    ensures order { grid.new.order ≡ grid.old.order }
    ensures other_order { other.new.order ≡ other.old.order }
    ensures refused_col { OnErr result.0 (grid.new ≡ grid.old) }
    ensures refused_col_line { IfErr result.0 (λ refused. refused.line.items ≡ line.items) }
    ensures refused_row { OnErr result.1 (other.new ≡ other.old) }
    ensures refused_row_line { IfErr result.1 (λ refused. refused.line.items ≡ other_line.items) }
    ensures law { insert_col at line.items grid.old.rows
        ≡ act Transpose (insert (act Transpose grid.old.rows) at line.items) }
{
    let as_col = grid.insert_col(at, line);
    other.transpose();
    let as_row = other.insert_row(at, other_line);
    other.transpose();
    (as_col, as_row)
}

/// Runs a list of commands on two grids of the same rows, which may be stored in different orders, and returns both
/// results. Where neither run stops, the rows are the same, and so are the replies.
///
///     [[1, 2]], [[1, 2]]   run_in_either_order([Apply(FlipCols), Get(0, 0)], the same)   [Done, Cell(2)] twice
///
/// The clauses but the last three are those of the two calls of [`run`].
///
/// Requires: the grids have the same rows, and the lists say the same commands.
/// Fails: each of the two as its run does, and says the same of the commands that were done.
/// Cost: that of both runs.
pub fn run_in_either_order<T, A: Allocator>(
    allocs: (A, A),
    grid: &mut Grid<T, A>,
    other: &mut Grid<T, A>,
    commands: Vec<Command<T, A>, A>,
    other_commands: Vec<Command<T, A>, A>,
    tally: &mut Tally,
    other_tally: &mut Tally,
) -> (
    Result<Vec<Reply<T, A>, A>, RunStopped<T, A>>,
    Result<Vec<Reply<T, A>, A>, RunStopped<T, A>>,
)
where
    T: Clone + Default + Drop,
    A: Clone,
    requires same { other.old.rows ≡ grid.old.rows }
    requires same_commands { map command_value other_commands.items
        ≡ map command_value commands.items }
    ensures gives { RunGives T.is_clone T.is_default
        (map command_value commands.items) grid.old grid.new tally.old tally.new result.0 }
    ensures other_gives { RunGives T.is_clone T.is_default
        (map command_value other_commands.items)
        other.old other.new other_tally.old other_tally.new result.1 }
    ensures same_rows { OnOk result.0 (OnOk result.1 ((d : T)
        → AreKnown T.is_default T.is_clone d (map command_value commands.items)
        → other.new.rows ≡ grid.new.rows)) }
    ensures same_replies { IfOk result.0 (λ replies. IfOk result.1 (λ more. (d : T)
        → AreKnown T.is_default T.is_clone d (map command_value commands.items)
        → ClonesAreEqual T.is_clone
        → map reply_value more.items ≡ map reply_value replies.items)) }
    ensures law { (d : T) (xs : List (CommandValue T)) (old other_old new other_new : GridValue T)
        (first last other_first other_last : Counts) (answers others : List (ReplyValue T))
        → Ran T.is_clone T.is_default xs old new first last answers
        → Ran T.is_clone T.is_default xs other_old other_new other_first other_last others
        → other_old.rows ≡ old.rows → AreKnown T.is_default T.is_clone d xs
        → (other_new.rows ≡ new.rows) × (ClonesAreEqual T.is_clone → others ≡ answers) }
{
    let first = run(allocs.0, grid, commands, tally);
    let second = run(allocs.1, other, other_commands, other_tally);
    (first, second)
}
