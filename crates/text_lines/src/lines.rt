//! The lines of a text.
ghost use Rattle.std.specs.Prelude.{◌≡◌, ◌+◌, ◌^◌, ◌<◌, [], length, MatchOption, ◌==◌, position, slice_index, IfSome, IsUtf8};
ghost use Rattle.std.specs.Iterator.{at_most};
ghost use Rattle.std.specs.List.{before_first};
ghost use Rattle.text_lines.specs.Lines.{first_line, later_lines, without_return};

use memchr::memchr;

/// An iterator over the lines of a text, with their numbers, counted from 1.
///
/// A line comes without its end, and without one carriage return just before that.
///
///     Lines::of(b"ab\r\n\nc")   (1, "ab"), (2, ""), (3, "c")
#[derive(Drop)]
pub struct Lines<'a> {
    /// The unread rest.
    pub rest: &'a [u8],
    /// How many lines were read.
    pub count: usize,
    ghost countable: { count + length rest.now < 2 ^ 64 },
}

impl<'a> Lines<'a> {
    /// Returns the lines of a text, which need not be UTF-8.
    pub fn of(text: &'a [u8]) -> Lines<'a>
        ensures rest { result.rest.now ≡ text.now }
        ensures count { result.count ≡ 0 }
    {
        Lines {
            rest: text,
            count: 0,
        }
    }
}

impl<'a> Iterator for Lines<'a> {
    type Item = (usize, &'a [u8]);

    ghost next_gives = { λ old item new.
        MatchOption item (old.rest.now ≡ []) (λ line. (line.0 ≡ old.count + 1)
        × (line.1.now ≡ first_line old.rest.now) × (new.rest.now ≡ later_lines old.rest.now)
        × (new.count ≡ old.count + 1) × (0 < length old.rest.now)) };

    ghost remaining = { λ lines. at_most (length lines.rest.now) };

    fn next(&mut self) -> Option<(usize, &'a [u8])> {
        if self.rest.is_empty() {
            return None;
        }
        let (line, rest) = cut_bytes(self.rest);
        self.rest = rest;
        self.count += 1;
        Some((self.count, bytes_without_return(line)))
    }
}

// The bytes before the first line feed, and those after it.
fn cut_bytes(text: &[u8]) -> (&[u8], &[u8])
    ensures line { result.0.now ≡ before_first (λ byte. byte == 10) text.now }
    ensures rest { result.1.now ≡ later_lines text.now }
{
    match line_feed(text) {
        Some(end) => (&text[..end], &text[end + 1..]),
        None => (text, &[]),
    }
}

fn bytes_without_return(line: &[u8]) -> &[u8]
    ensures { result.now ≡ without_return line.now }
{
    line.strip_suffix(b"\r").unwrap_or(line)
}

/// Returns the first line of a text, without its end, and the rest.
///
///     cut_line("ab\r\n\nc")   ("ab", "\nc")
pub fn cut_line(text: &str) -> (&str, &str)
    ensures line { result.0.now ≡ first_line text.now }
    ensures rest { result.1.now ≡ later_lines text.now }
    ensures utf8 { IsUtf8 result.1.now }
{
    match line_feed(text.as_bytes()) {
        Some(end) => (without_return(&text[..end]), &text[end + 1..]),
        None => (without_return(text), ""),
    }
}

fn without_return(line: &str) -> &str
    ensures { result.now ≡ without_return line.now }
{
    if line.as_bytes().ends_with(b"\r") {
        &line[..line.len() - 1]
    } else {
        line
    }
}

// Where the first line feed is.
fn line_feed(text: &[u8]) -> Option<usize>
    ensures first { result ≡ position (λ byte. byte == 10) text.now }
    ensures ascii { IfSome result
        (λ end. (end < length text.now) × (slice_index text.now end < 128)) }
{
    memchr(b'\n', text)
}
