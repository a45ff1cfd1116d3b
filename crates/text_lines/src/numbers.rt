//! The numbers that words write.
ghost use Rattle.std.specs.Prelude.{◌≡◌};
ghost use Rattle.text_lines.specs.Numbers.{index_of, cell_of};

/// Returns the index or count that a word writes: decimal digits alone, in the range of a `usize`. Else `None`.
///
///     parse_index("007")   Some(7)      parse_index("+7")   None
pub fn parse_index(word: &str) -> Option<usize>
    ensures { result ≡ index_of word.now }
{
    if word.starts_with('+') {
        return None;
    }
    word.parse::<usize>().ok()
}

/// Returns the cell that a word writes: decimal digits, perhaps after a minus, in the range of an `i64`. Else `None`.
///
///     parse_cell("-8")   Some(-8)      parse_cell("8.0")   None
pub fn parse_cell(word: &str) -> Option<i64>
    ensures { result ≡ cell_of word.now }
{
    if word.starts_with('+') {
        return None;
    }
    word.parse::<i64>().ok()
}
