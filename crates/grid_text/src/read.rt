//! Grids read from text.
ghost use Rattle.std.specs.Prelude.{ℕ, Option, List, MatchResult, chars};
ghost use Rattle.text_lines.specs.Lines.{lines_of, words_of};
ghost use Rattle.grid_text.specs.Reading.{ReadsBy, ReadsWordsBy, AnswersWord, TriesWordsBy, AnswersChar, TriesWord, Cutting, by_chars, by_words, MayReadAs, IsOrMemory, IsRow, IsBadRow, bad_char, bad_word, reading, reading_words};

use super::error::TextError;
use grid::{Grid, ShapeError};
use grid_rows::RowsBuilder;
use std::alloc::{AllocError, Allocator};
use text_lines::{Words, cut_line};

/// Returns the row-major grid of a text: each line is a row, and `read` says which cell a character is, or `None` where
/// it isn't one.
///
///     from_text(alloc, "#..\n.#.\n", |c| match c { '#' => Some(1), '.' => Some(0), _ => None })
///     [[1, 0, 0], [0, 1, 0]]
///
/// A line ends at a line feed, with or without a carriage return before it, or at the end of the text. A line feed at
/// the end of the text adds no row. A blank line is a row without cells: among rows with cells it is ragged, and a
/// text of blank lines is the empty grid.
///
/// Requires: `read` can be called at every character.
/// Fails: `BadChar` or `Ragged` of the first line that isn't a row; its characters are tested before their count.
/// `Memory` if allocation fails.
/// Cost: one call for each character; the vector of cells grows as it is filled.
pub fn from_text<T: Drop, A: Allocator, F: Fn(char) -> Option<T>>(
    alloc: A,
    text: &str,
    read: F,
) -> Result<Grid<T, A>, TextError>
    requires { F.IsAlwaysCallable read }
    ensures reads { (h : ℕ → Option T) → ReadsBy F.post read h
        → IsOrMemory (reading h (lines_of text.now)) result }
    ensures answers { MayReadAs chars bad_char (F.post read) (lines_of text.now) result }
{
    read_lines(alloc, text, &Chars(read))
}

/// Returns the row-major grid of a text: each line is a row, and `read` says which cell a word is, or `None` where it
/// isn't one. Words are separated by spaces and tabs.
///
///     from_words(alloc, "1 20\n 3  4\n", |word| word.parse::<i64>().ok())   [[1, 20], [3, 4]]
///
/// Lines end as in [`from_text`]. A line without words is a row without cells.
///
/// Requires: `read` can be called at every word.
/// Fails: `BadWord` or `Ragged` of the first line that isn't a row; its words are tested before their count. `Memory`
/// if allocation fails.
/// Cost: one call for each word; the vector of cells grows as it is filled.
pub fn from_words<T: Drop, A: Allocator, F: Fn(&str) -> Option<T>>(
    alloc: A,
    text: &str,
    read: F,
) -> Result<Grid<T, A>, TextError>
    requires { F.IsAlwaysCallable read }
    ensures reads { (h : List ℕ → Option T) → ReadsWordsBy F.post read h
        → IsOrMemory (reading_words h (lines_of text.now)) result }
    ensures answers { MayReadAs words_of bad_word
        (AnswersWord F.post read) (lines_of text.now) result }
{
    try_from_words(alloc, text, |word| Ok(read(word)))
}

/// Same as [`from_words`], with a closure that may fail to allocate, as one that makes a `String` of a word: its `Err`
/// is `Memory` here.
///
///     try_from_words(alloc, "ab c\n", |word| Ok(Some(String::from_str(alloc, word)?)))   [["ab", "c"]]
pub fn try_from_words<T: Drop, A: Allocator, F>(
    alloc: A,
    text: &str,
    read: F,
) -> Result<Grid<T, A>, TextError>
where
    F: Fn(&str) -> Result<Option<T>, AllocError>,
    requires { F.IsAlwaysCallable read }
    ensures reads { (h : List ℕ → Option T) → TriesWordsBy F.post read h
        → IsOrMemory (reading_words h (lines_of text.now)) result }
    ensures answers { MayReadAs words_of bad_word
        (TriesWord F.post read) (lines_of text.now) result }
{
    read_lines(alloc, text, &Tried(read))
}

// The grid of the lines of a text, each cut into characters or into words.
fn read_lines<T: Drop, A: Allocator, P: Pieces<T, A>>(
    alloc: A,
    text: &str,
    pieces: &P,
) -> Result<Grid<T, A>, TextError>
    requires { P.callable pieces.now }
    ensures { let by = P.cutting pieces.now in
        MayReadAs by.parts by.bad by.answers (lines_of text.now) result }
{
    let mut rows = RowsBuilder::new(alloc);
    let mut rest = text;
    let mut line = 0usize;
    while !rest.is_empty() {
        let (pieces_text, later) = cut_line(rest);
        line += 1;
        pieces.read(&mut rows, line, pieces_text)?;
        match rows.end_row() {
            Ok(()) => {}
            Err(ShapeError::Ragged { len, cols, .. }) => {
                return Err(TextError::Ragged { line, len, cols });
            }
            Err(_) => return Err(TextError::Memory),
        }
        rest = later;
    }
    Ok(rows.into_grid())
}

// How a line is cut into pieces, characters or words, and what each may be read as.
trait Pieces<T, A: Allocator> {
    ghost cutting: { Self → Cutting T };

    ghost callable: { Self → Type 0 };

    // Adds the cells of a line to the open row.
    fn read(&self, rows: &mut RowsBuilder<T, A>, line: usize, text: &str) -> Result<(), TextError>
        requires { callable self.now }
        ensures { let by = cutting self.now in MatchResult result
            (λ _. IsRow by.parts by.bad by.answers line text.now rows.old rows.new)
            (IsBadRow by.parts by.bad by.answers line text.now) };
}

// Characters.
#[derive(Drop)]
struct Chars<F>(F);

impl<T: Drop, A: Allocator, F: Fn(char) -> Option<T>> Pieces<T, A> for Chars<F> {
    ghost cutting = { λ by. by_chars (AnswersChar F.post by.0) };

    ghost callable = { λ by. F.IsAlwaysCallable by.0 };

    fn read(&self, rows: &mut RowsBuilder<T, A>, line: usize, text: &str) -> Result<(), TextError> {
        let Chars(read) = self;
        let mut column = 0usize;
        for found in text.chars() {
            column += 1;
            match read(found) {
                Some(cell) => rows.push(cell)?,
                None => return Err(TextError::BadChar {
                    line,
                    column,
                    found,
                }),
            }
        }
        Ok(())
    }
}

// Words, whose closure may fail to allocate.
#[derive(Drop)]
struct Tried<F>(F);

impl<T: Drop, A: Allocator, F> Pieces<T, A> for Tried<F>
where
    F: Fn(&str) -> Result<Option<T>, AllocError>,
{
    ghost cutting = { λ by. by_words (TriesWord F.post by.0) };

    ghost callable = { λ by. F.IsAlwaysCallable by.0 };

    fn read(&self, rows: &mut RowsBuilder<T, A>, line: usize, text: &str) -> Result<(), TextError> {
        let Tried(read) = self;
        let mut word = 0usize;
        for found in Words(text) {
            word += 1;
            match read(found)? {
                Some(cell) => rows.push(cell)?,
                None => return Err(TextError::BadWord { line, word }),
            }
        }
        Ok(())
    }
}
