//! A function that calls itself: a search that makes a move, looks further, and takes the move back.
use grid::Grid;

/// Returns whether a player has a row, a column or a diagonal of a board of noughts and crosses.
pub fn has_won(board: &Grid<u8>, player: u8) -> bool {
    board
        .iter_rows()
        .any(|mut row| row.all(|cell| *cell == player))
        || board
            .iter_cols()
            .any(|mut col| col.all(|cell| *cell == player))
        || (0..3).all(|k| board.get(k, k) == Some(&player))
        || (0..3).all(|k| board.get(k, 2 - k) == Some(&player))
}

/// Returns what comes of a board for the player whose turn it is, 1 or 2, if both play as well as they can: 1 if he
/// wins, 0 for a draw, -1 if he loses. It looks at most `left` moves ahead.
///
///     [[1, 1, 0], [2, 2, 0], [0, 0, 0]]   outcome(1, 9)   1
pub fn outcome(board: &mut Grid<u8>, player: u8, left: u32) -> i8 {
    let other = if player == 1 { 2 } else { 1 };
    if has_won(board, other) {
        return -1;
    }
    if left == 0 {
        return 0;
    }
    let mut best = None;
    for at in board.indices() {
        if board.get_at(at) == Some(&0) {
            board.set_at(at, player);
            let score = outcome(board, other, left - 1).saturating_neg();
            board.set_at(at, 0);
            best = best.max(Some(score));
        }
    }
    best.unwrap_or(0)
}
