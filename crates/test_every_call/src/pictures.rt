//! Boards as pictures, and boards made larger.
use crate::state::{Answer, Call, Numbers, Start, came};
use grid_pnm::laws::{pgm_written_and_read, ppm_written_and_read};
use grid_pnm::{PnmError, enlarged, from_pgm, from_ppm, read_header, to_pgm, to_ppm};
use std::alloc::AllocError;

pub const CALLS: [Call; 8] = [
    Call("grid_pnm::read_header", 1, None, None),
    Call("grid_pnm::from_pgm", 11, None, None),
    Call("grid_pnm::from_ppm", 11, None, None),
    Call("grid_pnm::to_pgm", 1, None, Some(1)),
    Call("grid_pnm::to_ppm", 1, None, Some(1)),
    Call("grid_pnm::pgm_written_and_read", 1, None, None),
    Call("grid_pnm::ppm_written_and_read", 1, None, None),
    Call("grid_pnm::enlarged", 5, None, None),
];

fn sample(cell: &u32) -> u8 {
    (cell % 200) as u8
}

fn color(cell: &u32) -> [u8; 3] {
    [sample(cell); 3]
}

fn read(start: &Start, name: &str) -> Result<Answer, AllocError> {
    let board = start.numbers()?;
    if name == "grid_pnm::from_ppm" {
        let picture = to_ppm(start.alloc, &board, color)?;
        start.ready();
        return Ok(came(from_ppm(&start.heap, picture.as_slice())));
    }
    let picture = to_pgm(start.alloc, &board, sample)?;
    start.ready();
    Ok(if name == "grid_pnm::from_pgm" {
        came(from_pgm(&start.heap, picture.as_slice()))
    } else {
        came(read_header(picture.as_slice()))
    })
}

// Pictures, gray and colored: in decimals good ones of one row and of one column, and in bytes a good one; the last
// sample above the greatest, in decimals and in bytes; and no number; good ones whose greatest sample is 1, and 255;
// one with a comment.
const GRAY: [&[u8]; 10] = [
    b"P2 2 1 9 7 9",
    b"P2 1 2 9 7 9",
    b"P5 2 1 9 \x07\x09",
    b"P2 2 1 9 7 10",
    b"P5 2 1 9 \x07\x0a",
    b"P2 2 1 9 7 x",
    b"P2 2 1 1 1 0",
    b"P5 2 1 1 \x01\x00",
    b"P5 1 1 255 \xff",
    b"P2 # two\n2 1\n9\n7 9\n",
];

const COLORED: [&[u8]; 10] = [
    b"P3 1 2 9 1 2 3 4 5 6",
    b"P3 2 1 9 1 2 3 4 5 6",
    b"P6 1 2 9 \x01\x02\x03\x04\x05\x09",
    b"P3 1 2 9 1 2 3 4 5 10",
    b"P6 1 2 9 \x01\x02\x03\x04\x05\x0a",
    b"P3 1 2 9 1 2 3 4 5 x",
    b"P3 1 1 1 1 0 1",
    b"P6 1 1 1 \x01\x00\x01",
    b"P6 1 1 255 \xff\x00\x7f",
    b"P3 # one\n1 1\n9\n7 8 9\n",
];

fn picture(pictures: [&'static [u8]; 10], start: &Start) -> &'static [u8] {
    pictures
        .get(start.case.wrapping_sub(1))
        .copied()
        .unwrap_or(b"")
}

// What a picture of a case came to; those of cases 4 to 6 have a fault.
fn plain_came<T: Drop>(start: &Start, read: Result<T, PnmError>) -> Answer {
    match read {
        Err(PnmError::AboveMax { .. }) if start.case == 4 || start.case == 5 => Answer::Done,
        Err(PnmError::BadNumber { .. }) if start.case == 6 => Answer::Done,
        Ok(_) if start.case > 3 && start.case < 7 => Answer::Wrong,
        read => came(read),
    }
}

fn plain_read(start: &Start, name: &str) -> Answer {
    if start.size != (1, 1) {
        return Answer::Skipped;
    }
    start.ready();
    if name == "grid_pnm::from_pgm" {
        plain_came(start, from_pgm(&start.heap, picture(GRAY, start)))
    } else {
        plain_came(start, from_ppm(&start.heap, picture(COLORED, start)))
    }
}

// Of many cells or few, each as often as the case says.
fn large(start: &Start, board: &Numbers<'_>) -> Answer {
    let answer = came(enlarged(&start.heap, board, start.case));
    let cells = start.case.min(start.size.0).min(1) as u64;
    if answer == Answer::Done && start.heap.granted() != cells {
        return Answer::Wrong;
    }
    answer
}

fn written(start: &Start, name: &str) -> Result<Answer, AllocError> {
    let board = start.numbers()?;
    start.ready();
    let gray = |cell: &u32| {
        start.called();
        sample(cell)
    };
    let colored = |cell: &u32| {
        start.called();
        color(cell)
    };
    Ok(match name {
        "grid_pnm::to_pgm" => came(to_pgm(&start.heap, &board, gray)),
        "grid_pnm::to_ppm" => came(to_ppm(&start.heap, &board, colored)),
        "grid_pnm::pgm_written_and_read" => came(pgm_written_and_read(start.alloc, &board, gray)),
        "grid_pnm::ppm_written_and_read" => {
            came(ppm_written_and_read(start.alloc, &board, colored))
        }
        "grid_pnm::enlarged" => large(start, &board),
        _ => Answer::Wrong,
    })
}

pub fn call(start: &Start, name: &str) -> Result<Answer, AllocError> {
    match name {
        "grid_pnm::from_pgm" | "grid_pnm::from_ppm" if start.case > 0 => {
            Ok(plain_read(start, name))
        }
        "grid_pnm::read_header" | "grid_pnm::from_pgm" | "grid_pnm::from_ppm" => read(start, name),
        name => written(start, name),
    }
}
