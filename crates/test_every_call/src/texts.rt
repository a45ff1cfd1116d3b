//! Boards as texts, of characters and of words.
use crate::state::{Answer, Board, Call, Numbers, Start, came, number_of};
use grid_text::laws::{numbers_written_and_read, written_and_read};
use grid_text::{TextError, from_text, from_words, to_text, to_words, try_from_words};
use std::alloc::AllocError;

pub const CALLS: [Call; 9] = [
    Call("Grid::pretty", 4, None, None),
    Call("GridView::pretty", 4, None, None),
    Call("grid_text::to_text", 4, None, None),
    Call("grid_text::to_words", 3, None, None),
    Call("grid_text::from_text", 3, None, Some(1)),
    Call("grid_text::from_words", 4, None, Some(1)),
    Call("grid_text::try_from_words", 4, None, Some(1)),
    Call("grid_text::written_and_read", 1, None, None),
    Call("grid_text::numbers_written_and_read", 1, None, None),
];

// Characters of one, four, two and three bytes, and a digit.
const LETTERS: [char; 5] = ['x', '🦀', 'é', '€', '7'];

// The case of the digit, which `large` reads.
pub const DIGIT: usize = 4;

fn letter(start: &Start) -> char {
    LETTERS.get(start.case).copied().unwrap_or('x')
}

// A text as it was written, or in case 1 without the end of its last line.
fn ended<'t>(start: &Start, text: &'t str) -> &'t str {
    if start.case == 1 {
        text.trim_end()
    } else {
        text
    }
}

// Reads the characters of the case.
pub fn letters_read<'a>(start: &'a Start, text: &str) -> Result<Board<'a>, TextError> {
    from_text(&start.heap, text, |found| {
        start.called();
        if found == letter(start) {
            Some(start.given(1))
        } else {
            None
        }
    })
}

// Reads words by the call of this name.
pub fn numbers_read<'a>(start: &'a Start, name: &str, text: &str) -> Result<Board<'a>, TextError> {
    if name == "grid_text::try_from_words" {
        return try_from_words(&start.heap, text, |word| start.try_number(word));
    }
    from_words(&start.heap, text, |word| match number_of(word) {
        Some(number) => Some(start.cell(number)),
        None => None,
    })
}

// Two lines without characters, or of a blank and a tab.
fn blank_read<'a>(start: &'a Start, name: &str) -> Answer {
    if start.size != (0, 0) {
        return Answer::Skipped;
    }
    start.ready();
    match name {
        "grid_text::from_text" => came(letters_read(start, "\n\n")),
        name => came(numbers_read(start, name, " \n\t\n")),
    }
}

fn words_read<'a>(start: &'a Start, name: &str) -> Result<Answer, AllocError> {
    let written = to_words(start.alloc, &start.numbers()?)?;
    let mut tabbed = String::new(start.alloc);
    for letter in written.as_str().chars() {
        tabbed.push(if start.case == 2 && letter == ' ' {
            '\t'
        } else {
            letter
        })?;
    }
    let text = ended(start, tabbed.as_str());
    start.ready();
    Ok(came(numbers_read(start, name, text)))
}

// The largest numbers as words, or the least ones.
fn extremes_written<'a>(start: &'a Start) -> Result<Answer, AllocError> {
    let board = start.numbers()?;
    if start.case == 1 {
        let large = board.map_ref(|cell| u64::MAX.wrapping_sub(u64::from(*cell)))?;
        start.ready();
        return Ok(came(to_words(start.alloc, &large)));
    }
    let low = board.map_ref(|cell| i64::MIN.wrapping_add(i64::from(*cell)))?;
    start.ready();
    Ok(came(to_words(start.alloc, &low)))
}

// Reads each character as this number.
fn one(_: char) -> Option<u32> {
    Some(1)
}

fn written<'a>(start: &'a Start, board: &Numbers<'a>, name: &str) -> Result<Answer, AllocError> {
    let (alloc, heap) = (start.alloc, &start.heap);
    let put = |_: &u32| letter(start);
    Ok(match name {
        "Grid::pretty" if start.case == 0 => came(board.pretty(heap, None)),
        "Grid::pretty" => came(board.pretty(heap, Some(start.case.wrapping_sub(1)))),
        "GridView::pretty" if start.case == 0 => came(board.view().pretty(heap, None)),
        "GridView::pretty" => came(board.view().pretty(heap, Some(start.case.wrapping_sub(1)))),
        "grid_text::to_text" => came(to_text(alloc, board, put)),
        "grid_text::to_words" => came(to_words(alloc, board)),
        "grid_text::from_text" => {
            let text = to_text(alloc, board, put)?;
            came(letters_read(start, ended(start, text.as_str())))
        }
        "grid_text::written_and_read" => came(written_and_read(alloc, board, put, one)),
        "grid_text::numbers_written_and_read" => {
            came(numbers_written_and_read(alloc, board, number_of))
        }
        _ => Answer::Wrong,
    })
}

pub fn call(start: &Start, name: &str) -> Result<Answer, AllocError> {
    match name {
        "grid_text::from_text" if start.case == 2 => Ok(blank_read(start, name)),
        "grid_text::from_words" | "grid_text::try_from_words" if start.case == 3 => {
            Ok(blank_read(start, name))
        }
        "grid_text::from_words" | "grid_text::try_from_words" => words_read(start, name),
        "grid_text::to_words" if start.case > 0 => extremes_written(start),
        name => {
            let board = start.numbers()?;
            start.ready();
            written(start, &board, name)
        }
    }
}
