//! Numbers between white space and comments.
ghost use Rattle.std.specs.Prelude.{◌≡◌, ◌≤◌, false, None, Some, Ok, Err, length, IfSome, IfOk, MatchOption, MatchResult};
ghost use Rattle.grid_pnm.specs.Prelude.{is_white, after_gap, digit_count, number_at, next_number};

use crate::PnmError;
use text_lines::parse_index;

// White space: a space, a tab, a line feed or a carriage return.
pub(crate) fn is_white(byte: u8) -> bool
    ensures { result ≡ is_white byte }
{
    byte == b' ' || byte == b'\t' || byte == b'\n' || byte == b'\r'
}

// The rest after the white space and the comments at the front.
pub(crate) fn after_gap(bytes: &[u8]) -> &[u8]
    ensures rest { result.now ≡ after_gap false bytes.now }
    ensures shorter { length result.now ≤ length bytes.now }
{
    let mut rest = bytes;
    let mut comment = false;
    while let Some((byte, later)) = rest.split_first() {
        if comment {
            comment = !(*byte == b'\n' || *byte == b'\r');
        } else if *byte == b'#' {
            comment = true;
        } else if !is_white(*byte) {
            return rest;
        }
        rest = later;
    }
    rest
}

// How many digits are at the front.
#[tactic(auto, using(crate::proofs::ScanLemmas::front_count))]
fn digit_count(bytes: &[u8]) -> usize
    ensures count { result ≡ digit_count bytes.now }
    ensures within { result ≤ length bytes.now }
{
    bytes
        .iter()
        .take_while(|byte| byte.is_ascii_digit())
        .count()
}

// The number that the digits at the front write, and the rest after them.
pub(crate) fn number_at(bytes: &[u8]) -> Option<(usize, &[u8])>
    ensures number { MatchOption result (number_at bytes.now ≡ None)
        (λ number. number_at bytes.now ≡ Some (number.0, number.1.now)) }
    ensures shorter { IfSome result (λ number. length number.1.now ≤ length bytes.now) }
{
    let (digits, rest) = bytes.split_at(digit_count(bytes));
    let word = str::from_utf8(digits).ok()?;
    Some((parse_index(word)?, rest))
}

// The number after white space and comments, and the rest after it, in a picture of `len` bytes.
#[tactic(auto, unfolding(crate::specs::Scan::next_number))]
pub(crate) fn next_number(len: usize, bytes: &[u8]) -> Result<(usize, &[u8]), PnmError>
    ensures number { MatchResult result
        (λ number. next_number len bytes.now ≡ Ok (number.0, number.1.now))
        (λ e. next_number len bytes.now ≡ Err e) }
    ensures shorter { IfOk result (λ number. length number.1.now ≤ length bytes.now) }
{
    let here = after_gap(bytes);
    match number_at(here) {
        Some(number) => Ok(number),
        None => Err(PnmError::BadNumber {
            at: len.saturating_sub(here.len()),
        }),
    }
}
